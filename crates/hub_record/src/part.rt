// A part of a buffer.
#[derive(Clone, Copy)]
pub struct Part {
    pub start: usize,
    pub count: usize,
}
