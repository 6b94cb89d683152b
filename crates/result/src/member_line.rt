// A member as the result file has it.
#[derive(Clone, Copy)]
pub struct MemberLine {
    pub code: u16,
    pub position: i64,
    pub cover: u64,
}
