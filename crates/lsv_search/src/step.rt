use crate::test::Test;

/// A step of an expression: a test says something of a head, and the others take what was said last.
#[derive(Drop)]
pub enum Step {
    Test(Test),
    Not,
    And,
    Or,
}
