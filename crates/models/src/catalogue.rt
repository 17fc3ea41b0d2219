//! The lawful patterns of four and of five marks.
//!
//! A pattern has one bit for each rising three of the marks, in rising order from the lowest bit on, and a one means left:
//! of four marks 012, 013, 023, 123; of five 012, 013, 014, 023, 024, 034, 123, 124, 134, 234. It is lawful where marks that
//! turn as it says keep the five laws.

ghost use Rattle.std.specs.Prelude.{◌<◌, T, ◌≢◌, ◌↔◌};
ghost use Rattle.laws.specs.Systems.{Lawful};
ghost use Rattle.models.specs.Catalogue.{four, five, Catalogued, Fours};

// The lawful patterns of five marks, in rising order.
const CATALOGUE: [u16; 264] = [
    0, 1, 3, 4, 6, 7, 11, 15, 20, 22, 30, 31, 32, 33, 48, 52, 56, 60, 62, 63, 64, 68, 72, 74, 75,
    76, 77, 79, 84, 85, 93, 95, 96, 112, 116, 117, 119, 127, 129, 131, 138, 139, 145, 146, 147,
    148, 149, 150, 154, 158, 161, 165, 180, 181, 188, 190, 192, 193, 200, 202, 209, 213, 216, 217,
    218, 221, 222, 223, 224, 225, 229, 231, 245, 247, 254, 255, 262, 263, 271, 274, 278, 280, 282,
    286, 287, 288, 289, 290, 293, 294, 295, 304, 306, 312, 387, 391, 392, 394, 395, 399, 402, 403,
    408, 410, 421, 423, 432, 434, 435, 436, 437, 439, 440, 444, 448, 449, 451, 455, 456, 465, 467,
    472, 473, 487, 499, 503, 504, 505, 507, 508, 510, 511, 512, 513, 515, 516, 518, 519, 520, 524,
    536, 550, 551, 556, 558, 567, 568, 572, 574, 575, 579, 583, 584, 586, 587, 588, 589, 591, 600,
    602, 613, 615, 620, 621, 624, 628, 629, 631, 632, 636, 711, 717, 719, 728, 729, 730, 733, 734,
    735, 736, 737, 741, 743, 745, 749, 752, 760, 761, 768, 769, 776, 778, 792, 794, 798, 799, 800,
    801, 802, 805, 806, 807, 810, 814, 821, 823, 830, 831, 833, 835, 842, 843, 858, 862, 865, 869,
    873, 874, 875, 876, 877, 878, 884, 885, 892, 894, 896, 904, 906, 907, 911, 927, 928, 930, 938,
    939, 944, 946, 947, 948, 949, 951, 955, 959, 960, 961, 963, 967, 971, 975, 990, 991, 992, 993,
    1001, 1003, 1008, 1012, 1016, 1017, 1019, 1020, 1022, 1023,
];

// The catalogue of the lawful patterns of five marks.
pub fn catalogue() -> &'static [u16]
    ensures catalogue { Catalogued result.now }
{
    &CATALOGUE
}

// Whether a number is a lawful pattern of five marks.
pub fn is_lawful_five(pattern: u16) -> bool
    ensures lawful { T result ↔ ((pattern < 1024) × Lawful (five pattern)) }
{
    catalogue().binary_search(&pattern).is_ok()
}

// Whether a number is a pattern of four marks, and neither 5 nor 10.
fn is_neither_five_nor_ten(pattern: u16) -> bool
    ensures neither { T result ↔ ((pattern < 16) × (pattern ≢ 5) × (pattern ≢ 10)) }
{
    pattern < 16 && pattern != 5 && pattern != 10
}

// Whether a number is a lawful pattern of four marks.
pub fn is_lawful_four(pattern: u16) -> bool
    ensures lawful { T result ↔ ((pattern < 16) × Lawful (four pattern)) }
{
    is_neither_five_nor_ten(pattern)
}

// Of the patterns of four marks 5 and 10 alone are not lawful: the contract names the theorem.
pub fn fours_stand()
    ensures fours { Fours }
{}
