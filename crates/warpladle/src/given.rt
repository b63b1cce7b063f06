// The number of a field that a host hands in; the other values are those of `told`.
ghost use Rattle.std.specs.Prelude.{◌≡◌};
ghost use Rattle.told.specs.Given.{is_set};
ghost use Rattle.warpladle.specs.Values.{number_given};

use told::given::is_set;

pub(crate) fn number(defined: u8, value: i64) -> Option<i64>
    ensures { result ≡ number_given (is_set defined) value }
{
    is_set(defined).then_some(value)
}
