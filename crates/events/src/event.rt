// What can happen to a client.
use crate::row::Row;
use wire::{Data, Duty, Share};

// An event that bytes were read as. A block's data stays in the lent bytes.
#[derive(Clone, Copy)]
pub enum Event<'a> {
    // A duty to be done.
    OnDuty(Duty),
    // The deciding for a slot has come to data.
    Decided(u64, Data),
    // A share came.
    ShareCame(Share),
    // A block has this data of ours.
    Block(Row<'a>),
    // The own shares that are kept are to be sent once more.
    Resend,
}

// Bytes that are no event, and the place where they cease to be one.
#[derive(Clone, Copy, PartialEq, Eq, Debug)]
pub struct Garbled {
    pub place: u64,
}
