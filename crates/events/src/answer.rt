// What a client answers.
use crate::row::Row;
use wire::{Data, Duty, Share};

// An answer that bytes were read as: a refusal's number and its place, or what was done.
// Stays: a refusal is a number here, since the bytes of an answer may hold any.
#[derive(Clone, Copy)]
pub enum Answer<'a> {
    Refused(u8, u64),
    Done(Rows<'a>),
}

// What was done, as it lies in some bytes: shares sent to all, data handed in, duties begun, slots ended.
#[derive(Clone, Copy)]
pub struct Rows<'a> {
    pub sent: Row<'a>,
    pub handed_in: Row<'a>,
    pub begun: Row<'a>,
    pub ended: Row<'a>,
}

// What was done, by value: shares sent to all, data handed in, duties begun, slots ended.
#[derive(Clone, Copy, Default)]
pub struct Deeds<'a> {
    pub sent: &'a [Share],
    pub handed_in: &'a [Data],
    pub begun: &'a [Duty],
    pub ended: &'a [u64],
}
