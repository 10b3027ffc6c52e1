//! Scripts whose lines are long, and volumes that are used by several scripts. Most scripts stand
//! as cases beside the program `lfs_trials`.
use crate::volume::{answered, new_device};
use lfs_device::Left;
use lfs_script::{StoppedScript, use_each};
use std::alloc::Global;
use std::test::Fail;

// Whether a write of so many hexadecimal zeros, with this behind them, has these replies.
fn replies(alloc: Global, zeros: usize, behind: &str, want: &[u8]) -> Result<bool, Fail> {
    let mut script = "create /a\npwrite 0 10 ".to_string(alloc)?;
    script.push_str("0".repeat(alloc, zeros)?.as_str())?;
    script.push_str(behind)?;
    let (_, output) = answered(alloc, &mut script.as_bytes())?;
    Ok(output.as_slice() == want)
}

#[test]
fn the_longest_line(rt: HostRuntime) -> Result<(), Fail> {
    for (zeros, newline, want) in [
        (139_988, "", b"ok 0\nerr Inval\n".as_slice()),
        (139_988, "\n", b"ok 0\nerr Inval\n".as_slice()),
        (139_989, "\n", b"ok 0\nbad 2\n".as_slice()),
        (139_990, "\n", b"ok 0\nbad 2\n".as_slice()),
    ] {
        let found = replies(rt.alloc(), zeros, newline, want)?;
        assert!(rt; found);
    }
    Ok(())
}

fn stopped_script(alloc: Global, text: &[u8], left: Left) -> Result<StoppedScript, Fail> {
    let script = Vec::from_slice(alloc, text)?;
    Ok(StoppedScript { script, left })
}

// What two scripts write that use a new volume in turn, with stops that leave this. None where the
// second isn't made.
fn used_in_turn(
    alloc: Global,
    first: &[u8],
    second: &[u8],
    left: Left,
) -> Result<Option<Vec<u8>>, Fail> {
    let scripts = [
        stopped_script(alloc, first, left)?,
        stopped_script(alloc, second, left)?,
    ];
    let mut output = Vec::new(alloc);
    let (end, _) = use_each(alloc, &scripts, &mut output, new_device(alloc)?);
    Ok(end.ok().map(|()| output))
}

#[test]
fn uses_in_turn(rt: HostRuntime) -> Result<(), Fail> {
    for (first, second, replies) in [
        (
            b"create /a\nsync\ncreate /b\n".as_slice(),
            b"tree\n".as_slice(),
            b"ok 0\nok\nok 1\nok 1\n1 a file 2 1 0 -\n".as_slice(),
        ),
        // A file that is open without a name goes with a stop, and its number is free again.
        (
            b"create /f\npwrite 0 0 6162\nunlink /f\npread 0 0 9\ncreate /h\nsync\n",
            b"tree\ncreate /g\nstat /g\n",
            b"ok 0\nok 2\nok\nok 6162\nok 1\nok\nok 1\n1 h file 3 1 0 -\nok 0\nok 2 file 1 0\n",
        ),
    ] {
        for left in [Left::Old, Left::New, Left::Bad] {
            let output = used_in_turn(rt.alloc(), first, second, left)?.ok_or("not mounted")?;
            assert!(rt; output.as_slice() == replies);
        }
    }
    Ok(())
}
