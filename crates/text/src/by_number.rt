// A refusal by a number, which none of the library's own need be: the line that the rule book gives it.
use crate::answers::{write_answer, write_sight};
use history::findings::Look;

#[test]
fn refused_by_number(rt: HostRuntime) {
    let mut out = [0u8; 128];
    let answer: Result<Option<usize>, u32> = Err(10);
    let n = write_answer(5, answer, &mut out);
    assert_eq!(rt; &out[..n], b"line=5 answer=10\n".as_slice());
    let look: Result<Look, u32> = Err(4294967295);
    let n = write_sight(6, look, &mut out);
    assert_eq!(rt; &out[..n], b"line=6 answer=4294967295\n".as_slice());
}
