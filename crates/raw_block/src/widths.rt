//! The widths of items that the compiler knows.

/// Calls a function whose parameter is the width of an item, for each width that numbers have, for
/// 3 (a pixel of three bytes) and for 16, or else does the other work.
#[macro_export]
macro_rules! on_width {
    ($width:expr, $work:ident::<N>($($arg:expr),* $(,)?) else $other:expr) => {
        match $width {
            1 => $work::<1>($($arg),*),
            2 => $work::<2>($($arg),*),
            3 => $work::<3>($($arg),*),
            4 => $work::<4>($($arg),*),
            8 => $work::<8>($($arg),*),
            16 => $work::<16>($($arg),*),
            _ => $other,
        }
    };
}
