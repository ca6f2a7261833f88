//! What the threads of a server leave.

/// What is left of a server that has ended.
#[derive(Drop)]
pub struct Ended<I: Drop> {
    /// The images, in the order in which they were opened.
    pub images: Vec<I>,
    /// Each thread could be started, and so clients were served.
    pub is_served: bool,
}
