// Values that a host hands in as numbers: a flag that says whether the value is defined, and its parts.
ghost use Rattle.std.specs.Prelude.{◌≡◌};
ghost use Rattle.told.specs.Given.{is_set, time_given, scaled_given, general_given};

use meter::general::Moment;
use meter::scaled::Scaled;
use meter::time::Time;

pub fn is_set(flag: u8) -> bool
    ensures { result ≡ is_set flag }
{
    flag != 0
}

pub fn time(defined: u8, day: u16, milli: u32) -> Option<Time>
    ensures { result ≡ time_given (is_set defined) day milli }
{
    is_set(defined).then_some(Time { day, milli })
}

pub fn scaled(defined: u8, integer: i64, scale: i8) -> Option<Scaled>
    ensures { result ≡ scaled_given (is_set defined) integer scale }
{
    is_set(defined).then_some(Scaled { integer, scale })
}

pub fn general(defined: u8, moment: Moment) -> Option<Moment>
    ensures { result ≡ general_given (is_set defined) moment }
{
    is_set(defined).then_some(moment)
}
