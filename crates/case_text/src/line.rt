//! The question of a line.
ghost use Rattle.case_text.specs.Questions.{QuestionOf};

use bstr::ByteSlice;

/// The question of a line: what stands before its last ` = `, or all of it. An operator may be `=`, so only the last one
/// begins an answer.
pub fn question(line: &[u8]) -> &[u8]
    ensures { QuestionOf line.now result.now }
{
    match line.rfind(b" = ") {
        Some(at) => &line[..at],
        None => line,
    }
}
