//! Cases of one kind, read and written back: each question is answered with the number of questions before it.
ghost use Rattle.std.specs.Prelude.{◌≡◌, decimal};
ghost use Rattle.case_text.specs.Texts.{answered};

use crate::{Replay, from_hex, question, replay_input, replayed, write_answered};
use std::alloc::{AllocError, Global};
use std::test::Fail;

#[derive(Drop)]
struct Count {
    asked: u8,
}

impl Replay for Count {
    type Answer = u8;

    ghost fresh_case = { record { asked = 0 } };

    ghost steps = { λ c q d a. (a ≡ c.asked) };

    ghost written = { λ c a. answered (decimal a) };

    fn fresh() -> Count {
        Count { asked: 0 }
    }

    fn ask(self, _heap: Global, _question: &[u8]) -> Result<(Count, u8), AllocError> {
        let asked = self.asked;
        Ok((
            Count {
                asked: asked.saturating_add(1),
            },
            asked,
        ))
    }

    fn write_answer(&self, heap: Global, answer: u8, out: &mut Vec<u8>) -> Result<(), AllocError> {
        write_answered(heap, &answer, out)
    }
}

#[test]
fn answers_are_worked_out_afresh(rt: HostRuntime) -> Result<(), Fail> {
    let text = b"a = 7\nb\n\n\nc = d = e\r".as_slice();
    let out = replayed::<Count>(rt.alloc(), text)?;
    assert!(rt; out.as_slice() == b"a = 0\nb = 1\n\n\nc = d = 0\n".as_slice());
    Ok(())
}

#[test]
fn no_text_has_no_line(rt: HostRuntime) -> Result<(), Fail> {
    let out = replayed::<Count>(rt.alloc(), b"")?;
    assert!(rt; out.is_empty());
    Ok(())
}

#[test]
fn input_is_read_to_its_end(rt: HostRuntime) -> Result<(), Fail> {
    let mut input = b"a\nb".as_slice();
    let mut output = Vec::new(rt.alloc());
    replay_input::<Count, _, _>(rt.alloc(), &mut input, &mut output)?;
    assert!(rt; input.is_empty());
    assert!(rt; output.as_slice() == b"a = 0\nb = 1\n".as_slice());
    Ok(())
}

#[test]
fn a_carriage_return_is_an_ordinary_byte(rt: HostRuntime) {
    assert!(rt; question(b"a\r = b = c\r") == b"a\r = b".as_slice());
}

#[test]
fn digits_in_either_case(rt: HostRuntime) -> Result<(), Fail> {
    let heap = rt.alloc();
    assert!(rt;
        from_hex(heap, b"0fAb").is_ok_and(|bytes| bytes.as_slice() == b"\x0f\xab".as_slice())
    );
    assert!(rt; from_hex(heap, b"-").is_ok_and(|bytes| bytes.is_empty()));
    assert!(rt; from_hex(heap, b"").is_err());
    assert!(rt; from_hex(heap, b"0").is_err());
    assert!(rt; from_hex(heap, b"0g").is_err());
    Ok(())
}
