// From where to where a circuit is to lead, and another, and which span is shut in between.
#[derive(Clone, Copy)]
pub struct Trip {
    pub circuit: u16,
    pub other: u16,
    pub from: u16,
    pub to: u16,
    pub span: u16,
}
