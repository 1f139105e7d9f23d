// What a message is checked under.
#[derive(Clone, Copy, Debug)]
pub struct Context<'a> {
    pub table: &'a [u8],
    pub store: &'a [u8],
    // Whose settings in the store hold.
    pub customer: u16,
}
