//! A worked script with a mark.

use script_text::{read_history_script, read_script};

/// A mark may come after each case, where marks are read.
#[test]
fn reads_the_marks_of_a_script(rt: HostRuntime) {
    let text =
        b"client 1\ngkr case 1\nprogram 0\n\ninput 0\nend\nwithdraw\nclient 2\ngkr case 1\nprogram 0\n\ninput 0\nend\ndone\n";
    match read_history_script(rt.alloc(), text) {
        Ok(jobs) => {
            assert!(rt; jobs.len() == 2);
            assert!(rt; jobs[0].client == 1 && jobs[0].withdraw);
            assert!(rt; jobs[1].client == 2 && !jobs[1].withdraw);
        }
        Err(_) => assert!(rt; false),
    }
    assert!(rt; read_script(rt.alloc(), text).is_err());
}
