//! The eight widths of values, each with the name of its variant.

// What is done with the sides, whatever their width: `$case` is given them and the name of their variant.
macro_rules! with_sides {
    ($kind:ident, $sides:expr, $case:ident) => {
        match $sides {
            $kind::One(sides) => $case!(sides, One),
            $kind::Two(sides) => $case!(sides, Two),
            $kind::Three(sides) => $case!(sides, Three),
            $kind::Four(sides) => $case!(sides, Four),
            $kind::Five(sides) => $case!(sides, Five),
            $kind::Six(sides) => $case!(sides, Six),
            $kind::Seven(sides) => $case!(sides, Seven),
            $kind::Eight(sides) => $case!(sides, Eight),
        }
    };
}

// What is done for values of this many words: `$case` is given their width and the name of its variant.
macro_rules! at_width {
    ($words:expr, $case:ident) => {
        match $words {
            1 => $case!(1, One),
            2 => $case!(2, Two),
            3 => $case!(3, Three),
            4 => $case!(4, Four),
            5 => $case!(5, Five),
            6 => $case!(6, Six),
            7 => $case!(7, Seven),
            8 => $case!(8, Eight),
            _ => unreachable!(),
        }
    };
}

pub(crate) use at_width;
pub(crate) use with_sides;
