// The fixed tables, and what they say of years and months.
ghost use Rattle.std.specs.Prelude.{◌≡◌, ◌+◌, ◌<◌, ◌≤◌};
ghost use Rattle.calendar.specs.Calendar.{leap, before_year, before_month, month_length};
ghost use Rattle.calendar.specs.Rules.{starts};

use super::day::Day;

// The day numbers of 1 January 1970 to 1 January 2200: a plain table, for a Vec would need a heap.
const YEARS: [u32; 231] = [
    0, 365, 730, 1096, 1461, 1826, 2191, 2557, 2922, 3287, 3652, 4018, 4383, 4748, 5113, 5479,
    5844, 6209, 6574, 6940, 7305, 7670, 8035, 8401, 8766, 9131, 9496, 9862, 10227, 10592, 10957,
    11323, 11688, 12053, 12418, 12784, 13149, 13514, 13879, 14245, 14610, 14975, 15340, 15706,
    16071, 16436, 16801, 17167, 17532, 17897, 18262, 18628, 18993, 19358, 19723, 20089, 20454,
    20819, 21184, 21550, 21915, 22280, 22645, 23011, 23376, 23741, 24106, 24472, 24837, 25202,
    25567, 25933, 26298, 26663, 27028, 27394, 27759, 28124, 28489, 28855, 29220, 29585, 29950,
    30316, 30681, 31046, 31411, 31777, 32142, 32507, 32872, 33238, 33603, 33968, 34333, 34699,
    35064, 35429, 35794, 36160, 36525, 36890, 37255, 37621, 37986, 38351, 38716, 39082, 39447,
    39812, 40177, 40543, 40908, 41273, 41638, 42004, 42369, 42734, 43099, 43465, 43830, 44195,
    44560, 44926, 45291, 45656, 46021, 46387, 46752, 47117, 47482, 47847, 48212, 48577, 48942,
    49308, 49673, 50038, 50403, 50769, 51134, 51499, 51864, 52230, 52595, 52960, 53325, 53691,
    54056, 54421, 54786, 55152, 55517, 55882, 56247, 56613, 56978, 57343, 57708, 58074, 58439,
    58804, 59169, 59535, 59900, 60265, 60630, 60996, 61361, 61726, 62091, 62457, 62822, 63187,
    63552, 63918, 64283, 64648, 65013, 65379, 65744, 66109, 66474, 66840, 67205, 67570, 67935,
    68301, 68666, 69031, 69396, 69762, 70127, 70492, 70857, 71223, 71588, 71953, 72318, 72684,
    73049, 73414, 73779, 74145, 74510, 74875, 75240, 75606, 75971, 76336, 76701, 77067, 77432,
    77797, 78162, 78528, 78893, 79258, 79623, 79989, 80354, 80719, 81084, 81450, 81815, 82180,
    82545, 82911, 83276, 83641, 84006,
];

// The days before each month of a plain year, and of a leap year.
const PLAIN: [u32; 12] = [0, 31, 59, 90, 120, 151, 181, 212, 243, 273, 304, 334];

const LEAP: [u32; 12] = [0, 31, 60, 91, 121, 152, 182, 213, 244, 274, 305, 335];

// The days before each month of a leap year, or of a plain one.
fn month_starts(long: bool) -> &'static [u32; 12]
    ensures { result.now ≡ starts long }
{
    if long { &LEAP } else { &PLAIN }
}

// The day number of 1 January of the year 1970 + k.
fn year_start(k: usize) -> u32
    requires { k < 231 }
    ensures { result ≡ before_year k }
{
    YEARS[k]
}

// A year of the table, counted from 1970.
#[derive(Clone, Copy)]
pub(crate) struct Year {
    pub(crate) index: usize,
    ghost inside: { index < 230 },
}

// A month, 1 for January, of a leap year or of a plain one.
#[derive(Clone, Copy)]
pub(crate) struct Month {
    pub(crate) number: usize,
    pub(crate) long: bool,
    ghost low: { 1 ≤ number },
    ghost high: { number ≤ 12 },
}

impl Year {
    // The year in which the day lies.
    pub(crate) fn of_day(day: Day) -> Year
        ensures { (before_year result.index ≤ day.number) × (day.number < before_year (result.index + 1)) }
    {
        Year {
            index: YEARS.partition_point(|&start| start <= day.number) - 1,
        }
    }

    // The day number of its 1 January.
    pub(crate) fn start(self) -> u32
        ensures { result ≡ before_year self.index }
    {
        year_start(self.index)
    }

    // Whether it is a leap year, read off the year table.
    pub(crate) fn is_long(self) -> bool
        ensures { result ≡ leap (1970 + self.index) }
    {
        year_start(self.index + 1) - year_start(self.index) == 366
    }
}

impl Month {
    // The month in which the day lies that is rest days after 1 January.
    pub(crate) fn of_rest(long: bool, rest: u32) -> Month
        ensures year { result.long ≡ long }
        ensures from { before_month result.long result.number ≤ rest }
        ensures to { result.number < 12 → rest < before_month result.long (result.number + 1) }
    {
        Month {
            number: month_starts(long).partition_point(|&start| start <= rest),
            long,
        }
    }

    // The days of its year before it.
    pub(crate) fn start(self) -> u32
        ensures { result ≡ before_month self.long self.number }
    {
        month_starts(self.long)[self.number - 1]
    }

    // How many days it has.
    pub(crate) fn days(self) -> u32
        ensures { result ≡ month_length self.long self.number }
    {
        if self.number == 12 {
            return 31;
        }
        let next = Month {
            number: self.number + 1,
            long: self.long,
        };
        next.start() - self.start()
    }
}
