// The regions of a client's memory.

// A region behind the header: the past, the queue, what is being decided, what is ahead, own shares, and the marks and the cells of the banks.
#[derive(Clone, Copy)]
pub enum Region {
    Past,
    Queue,
    Active,
    Ahead,
    Own,
    Marks,
    Cells,
}
