//! Worked texts: cases that are read and written, replies of made-up values, and audits, of which no run of the program names a
//! challenge.

use case_text::{
    AuditLines, Form, MessagePlace, Outputs, Reply, ServedJob, VerdictLine, read_case, write_case,
    write_reply, write_served,
};
use field_ext::{Ext, Fp};
use std::process::Abort;
use std::test::Fail;

const PLAIN: &[u8; 55] = b"gkr case 1\nprogram 18\ninput a; output a;\ninput 1 5\nend\n";

const WITH_OUTPUTS: &[u8; 66] =
    b"gkr case 1\nprogram 18\ninput a; output a;\ninput 1 5\noutput 1 5\nend\n";

const FULL: &[u8; 79] =
    b"gkr case 1\nprogram 18\ninput a; output a;\ninput 1 5\noutput 1 5\nproof 2\nabcd\nend\n";

#[test]
fn writes_what_it_reads(rt: HostRuntime) -> Result<(), Fail> {
    let alloc = rt.alloc();
    let upper =
        b"gkr case 1\nprogram 18\ninput a; output a;\ninput 1 5\noutput 1 5\nproof 2\nAbCD\nend\n";
    let rows: [(&[u8], &[u8]); 4] = [
        (PLAIN, PLAIN),
        (WITH_OUTPUTS, WITH_OUTPUTS),
        (FULL, FULL),
        (upper, FULL),
    ];
    for (text, want) in rows {
        match read_case(alloc, text, Form::Any) {
            Ok(case) => {
                let written = write_case(alloc, &case)?;
                assert_eq!(rt; written.as_slice(), want);
            }
            Err(_) => assert!(rt; false),
        }
    }
    Ok(())
}

/// Sees that a reply is written like this.
fn tells<R: Abort + AllocGlobal>(rt: &R, reply: Reply, want: &[u8]) -> Result<(), Fail> {
    let text = write_reply(rt.alloc(), &reply)?;
    assert_eq!(rt; text.as_slice(), want);
    Ok(())
}

#[test]
fn tells_outputs_and_verdicts(rt: HostRuntime) -> Result<(), Fail> {
    let number = |n: u64| Ext::embed(Fp::reduce(n));
    let values = vec![in rt.alloc(); Fp::reduce(5), Fp::reduce(2147483646)]?;
    tells(&rt, Reply::TooLong(6000000), b"refused long 6000000\n")?;
    tells(
        &rt,
        Reply::Outputs(Outputs::new(values)),
        b"output 2 5 2147483646\n",
    )?;
    let sum = VerdictLine::Sum {
        layer: 0,
        round: 1,
        had: number(2),
        claim: Ext::of(Fp::reduce(3), Fp::reduce(4)),
    };
    tells(&rt, Reply::Verdict(sum), b"rejected sum 0 1 2,0 3,4\n")?;
    let end = VerdictLine::End {
        layer: 0,
        had: number(1),
        want: number(0),
    };
    tells(&rt, Reply::Verdict(end), b"rejected end 0 1,0 0,0\n")?;
    let input = VerdictLine::Input {
        had: number(0),
        want: number(5),
    };
    tells(&rt, Reply::Verdict(input), b"rejected input 0,0 5,0\n")
}

/// Sees what is written of two jobs, one of them refused.
fn tells_of_jobs<R: Abort + AllocGlobal>(rt: &R, jobs: &[ServedJob]) -> Result<(), Fail> {
    let text = write_served(rt.alloc(), jobs)?;
    let want =
        b"client 1\noutput 1 0\nclient 64\nrefused program unknown 7\njobs 2 proved 1 refused 1\n";
    assert_eq!(rt; text.as_slice(), want.as_slice());
    Ok(())
}

#[test]
fn tells_replies_to_jobs(rt: HostRuntime) -> Result<(), Fail> {
    let alloc = rt.alloc();
    let outputs = Vec::from_slice(alloc, b"output 1 0\n")?;
    let refusal = Vec::from_slice(alloc, b"refused program unknown 7\n")?;
    let jobs = vec![in alloc;
        ServedJob::new(1, true, outputs),
        ServedJob::new(64, false, refusal),
    ]?;
    tells_of_jobs(&rt, &jobs)
}

#[test]
fn tells_audits(rt: HostRuntime) -> Result<(), Fail> {
    let value = Ext::of(Fp::reduce(3), Fp::reduce(4));
    let nothing = AuditLines {
        verdict: VerdictLine::Accepted,
        same: true,
        message: None,
        challenge: None,
    };
    let want = b"accepted\nmeaning same\nmessage none\nchallenge none\n";
    tells(&rt, Reply::Audit(nothing), want)?;
    let round = AuditLines {
        verdict: VerdictLine::Accepted,
        same: false,
        message: Some(MessagePlace::Round { layer: 0, round: 1 }),
        challenge: Some((1, value)),
    };
    let want = b"accepted\nmeaning differs\nmessage 0 1\nchallenge 1 3,4\n";
    tells(&rt, Reply::Audit(round), want)?;
    let line = AuditLines {
        verdict: VerdictLine::Input {
            had: Ext::zero(),
            want: value,
        },
        same: true,
        message: Some(MessagePlace::Line(12)),
        challenge: None,
    };
    let want = b"rejected input 0,0 3,4\nmeaning same\nmessage 12 line\nchallenge none\n";
    tells(&rt, Reply::Audit(line), want)
}
