//! The values of the options.
ghost use Rattle.std.specs.Prelude.{◌≡◌};
ghost use Rattle.command_words.specs.Values as values;

use crate::numbers::number_in;
use rma_types::{Delay, Order};
use run_texts::Mode;

/// The mode that a text names. The modes that start threads are not there yet.
pub fn mode_in(text: &str) -> Option<Mode>
    ensures { result ≡ values.mode_of text.now }
{
    match text {
        "step" => Some(Mode::Step),
        _ => None,
    }
}

/// The order of turns that a text names.
pub fn order_in(text: &str) -> Option<Order>
    ensures { result ≡ values.order_of text.now }
{
    match text {
        "robin" => Some(Order::Robin),
        "reverse" => Some(Order::Reverse),
        "greedy" => Some(Order::Greedy),
        "seeded" => Some(Order::Seeded),
        _ => None,
    }
}

/// The delay of touches that a text names.
pub fn delay_in(text: &str) -> Option<Delay>
    ensures { result ≡ values.delay_of text.now }
{
    match text {
        "none" => Some(Delay::None),
        "end" => Some(Delay::End),
        "seeded" => Some(Delay::Seeded),
        _ => None,
    }
}

/// The number of workers that a text names, from 1 to 16.
pub fn workers_in(text: &str) -> Option<u8>
    ensures { result ≡ values.workers_of text.now }
{
    match number_in(text.as_bytes(), 16) {
        Some(0) => None,
        Some(number) => Some(number as u8),
        None => None,
    }
}

/// The seed that a text names, from 0 to 4,294,967,295.
pub fn seed_in(text: &str) -> Option<u32>
    ensures { result ≡ values.seed_of text.now }
{
    number_in(text.as_bytes(), u32::MAX)
}
