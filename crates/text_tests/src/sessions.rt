//! A worked session.

use field_ext::Fp;
use session_text::read_session;

#[test]
fn reads_a_session(rt: HostRuntime) {
    let text = b"gkr case 1\nprogram 0\n\ninput 1 7\nend\nwords 3 2 0 3\ndone\n";
    match read_session(rt.alloc(), text) {
        Ok(session) => {
            assert!(rt; session.case().inputs() == [Fp::reduce(7)].as_slice());
            let words = [Fp::reduce(2), Fp::reduce(0), Fp::reduce(3)];
            assert!(rt; session.words() == words.as_slice());
        }
        Err(_) => assert!(rt; false),
    }
}
