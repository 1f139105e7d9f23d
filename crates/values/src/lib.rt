// Values as text for people: days, times, and the characters of a text. Everything is over slices and numbers.
#![tactic(auto)]

mod calendar;
mod characters;
mod spelling;
mod times;

pub use calendar::{Day, day_of};
pub use characters::{Kind, Piece, piece_at, plain_run};
pub use times::{date, millitime, nanotime, time_of_day_milli, time_of_day_nano};
