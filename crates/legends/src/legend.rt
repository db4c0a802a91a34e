// A legend: how many signs it has, and how its line is set. The signs themselves lie in lists that each call is lent.
use placement::Settings;

pub mod calls;
pub mod drawing;
pub mod readings;

#[derive(Clone, Copy, PartialEq, Eq, Debug)]
pub struct Legend {
    pub(crate) len: usize,
    pub(crate) settings: Settings,
}
