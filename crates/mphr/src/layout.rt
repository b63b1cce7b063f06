// Where each of the 72 lines stands, what it is called, and of which kind and width its value is.
ghost use Rattle.std.specs.Prelude.{◌≡◌, ◌≤◌, ◌<◌, get_or};
ghost use Rattle.calendar.specs.Said.{said};
ghost use Rattle.mphr.specs.Layout.{name_of, widths, kinds, width_of, kind_of, line_start};
ghost use Rattle.mphr.specs.Layout.{field_of};
ghost use Rattle.mphr.specs.Quick.{words_of, joined, byte_of};

use crate::rows::{end_0, end_1, end_2, head_0, head_1, head_2};
use calendar::{Refusal, fault};
use text::Kind;

// A field: where its line starts, how wide its value is, and of which kind.
#[derive(Clone, Copy)]
pub struct Place {
    pub start: usize,
    pub width: usize,
    pub kind: Kind,
}

pub(crate) const NAMES: [u8; 2160] = *b"\
PRODUCT_NAME                  \
PARENT_PRODUCT_NAME_1         \
PARENT_PRODUCT_NAME_2         \
PARENT_PRODUCT_NAME_3         \
PARENT_PRODUCT_NAME_4         \
INSTRUMENT_ID                 \
INSTRUMENT_MODEL              \
PRODUCT_TYPE                  \
PROCESSING_LEVEL              \
SPACECRAFT_ID                 \
SENSING_START                 \
SENSING_END                   \
SENSING_START_THEORETICAL     \
SENSING_END_THEORETICAL       \
PROCESSING_CENTRE             \
PROCESSOR_MAJOR_VERSION       \
PROCESSOR_MINOR_VERSION       \
FORMAT_MAJOR_VERSION          \
FORMAT_MINOR_VERSION          \
PROCESSING_TIME_START         \
PROCESSING_TIME_END           \
PROCESSING_MODE               \
DISPOSITION_MODE              \
RECEIVING_GROUND_STATION      \
RECEIVE_TIME_START            \
RECEIVE_TIME_END              \
ORBIT_START                   \
ORBIT_END                     \
ACTUAL_PRODUCT_SIZE           \
STATE_VECTOR_TIME             \
SEMI_MAJOR_AXIS               \
ECCENTRICITY                  \
INCLINATION                   \
PERIGEE_ARGUMENT              \
RIGHT_ASCENSION               \
MEAN_ANOMALY                  \
X_POSITION                    \
Y_POSITION                    \
Z_POSITION                    \
X_VELOCITY                    \
Y_VELOCITY                    \
Z_VELOCITY                    \
EARTH_SUN_DISTANCE_RATIO      \
LOCATION_TOLERANCE_RADIAL     \
LOCATION_TOLERANCE_CROSSTRACK \
LOCATION_TOLERANCE_ALONGTRACK \
YAW_ERROR                     \
ROLL_ERROR                    \
PITCH_ERROR                   \
SUBSAT_LATITUDE_START         \
SUBSAT_LONGITUDE_START        \
SUBSAT_LATITUDE_END           \
SUBSAT_LONGITUDE_END          \
LEAP_SECOND                   \
LEAP_SECOND_UTC               \
TOTAL_RECORDS                 \
TOTAL_MPHR                    \
TOTAL_SPHR                    \
TOTAL_IPR                     \
TOTAL_GEADR                   \
TOTAL_GIADR                   \
TOTAL_VEADR                   \
TOTAL_VIADR                   \
TOTAL_MDR                     \
COUNT_DEGRADED_INST_MDR       \
COUNT_DEGRADED_PROC_MDR       \
COUNT_DEGRADED_INST_MDR_BLOCKS\
COUNT_DEGRADED_PROC_MDR_BLOCKS\
DURATION_OF_PRODUCT           \
MILLISECONDS_OF_DATA_PRESENT  \
MILLISECONDS_OF_DATA_MISSING  \
SUBSETTED_PRODUCT             ";

pub(crate) const WIDTHS: [u8; 72] = [
    67, 67, 67, 67, 67, 4, 3, 3, 2, 3, 15, 15, 15, 15, 4, 5, 5, 5, 5, 15, 15, 1, 1, 3, 15, 15, 5,
    5, 11, 18, 11, 11, 11, 11, 11, 11, 11, 11, 11, 11, 11, 11, 11, 11, 11, 11, 11, 11, 11, 11, 11,
    11, 11, 2, 15, 6, 6, 6, 6, 6, 6, 6, 6, 6, 6, 6, 6, 6, 8, 8, 8, 1,
];

const STARTS: [usize; 72] = [
    20, 120, 220, 320, 420, 520, 557, 593, 629, 664, 700, 748, 796, 844, 892, 929, 967, 1005, 1043,
    1081, 1129, 1177, 1211, 1245, 1281, 1329, 1377, 1415, 1453, 1497, 1548, 1592, 1636, 1680, 1724,
    1768, 1812, 1856, 1900, 1944, 1988, 2032, 2076, 2120, 2164, 2208, 2252, 2296, 2340, 2384, 2428,
    2472, 2516, 2560, 2595, 2643, 2682, 2721, 2760, 2799, 2838, 2877, 2916, 2955, 2994, 3033, 3072,
    3111, 3150, 3191, 3232, 3273,
];

pub(crate) const KINDS: [Kind; 72] = [
    Kind::Text,
    Kind::Text,
    Kind::Text,
    Kind::Text,
    Kind::Text,
    Kind::Text,
    Kind::Text,
    Kind::Text,
    Kind::Text,
    Kind::Text,
    Kind::Time,
    Kind::Time,
    Kind::Time,
    Kind::Time,
    Kind::Text,
    Kind::Unsigned,
    Kind::Unsigned,
    Kind::Unsigned,
    Kind::Unsigned,
    Kind::Time,
    Kind::Time,
    Kind::Text,
    Kind::Text,
    Kind::Text,
    Kind::Time,
    Kind::Time,
    Kind::Unsigned,
    Kind::Unsigned,
    Kind::Count,
    Kind::LongTime,
    Kind::Signed,
    Kind::Signed,
    Kind::Signed,
    Kind::Signed,
    Kind::Signed,
    Kind::Signed,
    Kind::Signed,
    Kind::Signed,
    Kind::Signed,
    Kind::Signed,
    Kind::Signed,
    Kind::Signed,
    Kind::Signed,
    Kind::Signed,
    Kind::Signed,
    Kind::Signed,
    Kind::Signed,
    Kind::Signed,
    Kind::Signed,
    Kind::Signed,
    Kind::Signed,
    Kind::Signed,
    Kind::Signed,
    Kind::Signed,
    Kind::Time,
    Kind::Count,
    Kind::Count,
    Kind::Count,
    Kind::Count,
    Kind::Count,
    Kind::Count,
    Kind::Count,
    Kind::Count,
    Kind::Count,
    Kind::Unsigned,
    Kind::Unsigned,
    Kind::Unsigned,
    Kind::Unsigned,
    Kind::Unsigned,
    Kind::Unsigned,
    Kind::Unsigned,
    Kind::Text,
];

fn joined(head: [u64; 3], end: [u64; 2]) -> [u64; 5]
    ensures { result ≡ joined head end }
{
    [head[0], head[1], head[2], end[0], end[1]]
}

// The row of name k.
pub(crate) fn words(k: usize) -> [u64; 5]
    requires { k < 72 }
    ensures { result ≡ words_of (name_of k) }
{
    if k < 24 {
        return joined(head_0(k), end_0(k));
    }
    if k < 48 {
        return joined(head_1(k), end_1(k));
    }
    joined(head_2(k), end_2(k))
}

// Byte j of the eight that are the number w.
pub(crate) fn byte_of(w: u64, j: usize) -> u8
    requires { j < 8 }
    ensures { result ≡ byte_of w j }
{
    ((w >> (56 - 8 * j)) % 256) as u8
}

pub(crate) fn size_of(b: u8) -> usize
    ensures { result ≡ b }
{
    b as usize
}

// The width of line k, by the array that is lent.
pub(crate) fn width_at(table: &[u8; 72], k: usize) -> usize
    requires { (k < 72) × (table.now ≡ widths) }
    ensures { (result ≡ width_of k) × (result ≤ 67) }
{
    size_of(table[k])
}

pub(crate) fn width(k: usize) -> usize
    requires { k < 72 }
    ensures { (result ≡ width_of k) × (result ≤ 67) }
{
    let table = WIDTHS;
    width_at(&table, k)
}

pub(crate) fn start(k: usize) -> usize
    requires { k < 72 }
    ensures { result ≡ line_start k }
{
    STARTS[k]
}

// The kind of line k, by the array that is lent.
#[tactic(auto, unfolding(crate::specs::Layout::kind_of))]
pub(crate) fn kind_at(table: &[Kind; 72], k: usize) -> Kind
    requires { (k < 72) × (table.now ≡ kinds) }
    ensures { result ≡ kind_of k }
{
    table[k]
}

pub(crate) fn kind(k: usize) -> Kind
    requires { k < 72 }
    ensures { result ≡ kind_of k }
{
    let table = KINDS;
    kind_at(&table, k)
}

// The place of a field by its number; 22 where the number is not 0 to 71.
pub fn field_place(k: usize) -> Result<Place, Refusal>
    ensures { said result ≡ field_of k }
{
    if k > 71 {
        return Err(Refusal {
            number: fault::NO_FIELD,
            place: 0,
        });
    }
    Ok(Place {
        start: start(k),
        width: width(k),
        kind: kind(k),
    })
}
