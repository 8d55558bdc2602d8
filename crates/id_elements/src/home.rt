//! The element of a worker, among all elements of a machine.

ghost use Rattle.std.specs.Prelude.{◌≡◌, ◌<◌, ◌%◌};

use id_core::Count;

/// An element: its number, and how many there are.
///
/// Keeps: it is one of them.
#[derive(Clone, Copy)]
pub struct Home {
    pub number: u32,
    pub count: Count,
    pub ghost below: { number < count.number },
}

/// An element, and a sum by which a plain token is routed to it.
#[derive(Clone, Copy)]
pub struct Near {
    pub home: Home,
    pub sum: u64,
    pub ghost routed: { sum % home.count.number ≡ home.number },
}

impl Home {
    /// The element, with its own number as the sum. Takes no memory.
    #[inline(always)]
    pub fn near(self) -> Near
        ensures { result.home ≡ self }
    {
        Near {
            home: self,
            sum: u64::from(self.number),
        }
    }
}
