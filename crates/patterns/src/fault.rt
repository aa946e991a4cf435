// Why bytes are no pattern. The number is the refusal's.

#[derive(Clone, Copy, Debug, PartialEq)]
pub enum PatternFault {
    Bad = 22,
}
