// A table of lines, and of whole scripts.
use edit_script::{Act, Put, ScriptFault, read_script};
use otio_model::{FillMode, RemoveMode};
use std::alloc::Global;
use std::process::Abort;

// The number of an act, from 1 on.
fn kind_of(act: &Act) -> i64 {
    match act {
        Act::Overwrite { .. } => 1,
        Act::Insert { .. } => 2,
        Act::Slice { .. } => 3,
        Act::Fill { .. } => 4,
        Act::Remove { .. } => 5,
        Act::Trim { .. } => 6,
        Act::Slip { .. } => 7,
        Act::Slide { .. } => 8,
        Act::Ripple { .. } => 9,
        Act::Roll { .. } => 10,
        Act::Undo => 11,
        Act::Redo => 12,
    }
}

// The number of what a line alone is read as: -1 for no command, 0 for a fault of the line.
fn read_as(alloc: Global, line: &str) -> i64 {
    match read_script(alloc, line.as_bytes()) {
        Ok(commands) => match commands.first() {
            Some(command) if command.line == 1 => kind_of(&command.act),
            Some(_) => -2,
            None => -1,
        },
        Err(ScriptFault::Line(1)) => 0,
        Err(_) => -2,
    }
}

fn line_is(rt: &impl Abort, alloc: Global, line: &str, wanted: i64) {
    assert!(rt; read_as(alloc, line) == wanted, "{line}");
}

#[test]
fn reads_words_and_places(rt: HostRuntime) {
    let table = [
        ("undo", 11),
        ("redo", 12),
        (" redo\t", 12),
        ("\"undo\"", 11),
        ("slice 0 5", 3),
        ("slice\t0  5", 3),
        ("slice \"0\" \"5\"", 3),
        ("slice 0/12/4294967295 -999999999999999", 3),
        ("", -1),
        ("#", -1),
        ("# slice", -1),
        (" ", 0),
        (" # a", 0),
        ("Undo", 0),
        ("undo 1", 0),
        ("slice", 0),
        ("slice 0", 0),
        ("slice 0 5 6", 0),
        ("slice . 5", 0),
        ("slice 0/ 5", 0),
        ("slice /0 5", 0),
        ("slice 0//1 5", 0),
        ("slice -1 5", 0),
        ("slice 00 5", 0),
        ("slice 4294967296 5", 0),
        ("\"undo", 0),
        ("\"undo\"x", 0),
        ("slice \"0\"5", 0),
        ("undo\r", 0),
    ];
    for (line, wanted) in table {
        line_is(&rt, rt.alloc(), line, wanted);
    }
}

#[test]
fn reads_numbers_and_arguments(rt: HostRuntime) {
    let table = [
        ("overwrite 0 40 clip w W 0 10", 1),
        ("overwrite 0 40 clip \"\" \"a b\" 0 10", 1),
        ("insert 0 40 gap 0", 2),
        ("fill 0 1 source gap 3", 4),
        ("fill 0 1 sequence clip a A 1 2", 4),
        ("fill 0 1 fit gap 1", 4),
        ("remove 0 1 gap", 5),
        ("remove 0 1 close", 5),
        ("trim 0 1 -2 3", 6),
        ("slip 0 1 -2", 7),
        ("slide 0 1 2", 8),
        ("ripple 0 1 0 -5", 9),
        ("roll 0 1 0 0", 10),
        ("slice 0 05", 0),
        ("slice 0 +5", 0),
        ("slice 0 -0", 0),
        ("slice 0 -", 0),
        ("slice 0 1000000000000000", 0),
        ("slice 0 5.0", 0),
        ("insert 0 0 gap -1", 0),
        ("insert 0 0 gap", 0),
        ("insert 0 0 clip a A 0", 0),
        ("insert 0 0 clip a A -1 2", 0),
        ("insert 0 0 clip a A 1 2 3", 0),
        ("fill 0 1 Source gap 3", 0),
        ("fill 0 1 gap 3", 0),
        ("remove 0 1", 0),
        ("remove 0 1 open", 0),
        ("trim 0 1 2", 0),
        ("slip 0 1", 0),
        ("slip 0 1 2 3", 0),
    ];
    for (line, wanted) in table {
        line_is(&rt, rt.alloc(), line, wanted);
    }
}

// Whether it is a clip of this name, this reel and this range.
fn is_clip(put: &Put, wanted_name: &str, wanted_reel: &str, range: [i64; 2]) -> bool {
    match put {
        Put::Clip {
            name,
            reel,
            start,
            length,
        } => {
            let [wanted_start, wanted_length] = range;
            name.as_str() == wanted_name
                && reel.as_str() == wanted_reel
                && *start == wanted_start
                && *length == wanted_length
        }
        Put::Gap(_) => false,
    }
}

fn first_is_a_fill(rt: &impl Abort, act: &Act) {
    match act {
        Act::Fill {
            place,
            at,
            mode,
            put,
        } => {
            assert!(rt; place.len() == 2 && place.index(0) == Some(3) && place.index(1) == Some(0));
            assert!(rt; *at == -7 && *mode == FillMode::Fit);
            assert!(rt; is_clip(put, "a b", "R1", [12, 34]));
        }
        _ => panic!(rt; "no fill"),
    }
}

fn second_is_a_removal(rt: &impl Abort, act: &Act) {
    match act {
        Act::Remove { mode, .. } => assert!(rt; *mode == RemoveMode::Close),
        _ => panic!(rt; "no removal"),
    }
}

#[test]
fn reads_the_parts(rt: HostRuntime) {
    let script = "# one\r\n\r\nfill 3/0 -7 fit clip \"a b\" R1 12 34\nremove 1 2 close\r\n";
    let commands = read_script(rt.alloc(), script.as_bytes()).expect(&rt, "a script");
    assert!(rt; commands.len() == 2);
    assert!(rt; commands[0].line == 3 && commands[1].line == 4);
    first_is_a_fill(&rt, &commands[0].act);
    second_is_a_removal(&rt, &commands[1].act);
    drop(commands);
}

fn first_fault_is(rt: &impl Abort, alloc: Global, script: &[u8], wanted: Option<ScriptFault>) {
    assert!(rt; read_script(alloc, script).err() == wanted, "{script:?}");
}

#[test]
fn tells_the_first_fault(rt: HostRuntime) {
    let alloc = rt.alloc();
    first_fault_is(&rt, alloc, b"undo\nnone\nnone", Some(ScriptFault::Line(2)));
    first_fault_is(&rt, alloc, b"undo\n\n#\n x", Some(ScriptFault::Line(4)));
    first_fault_is(&rt, alloc, b"undo\r\nredo\r\n", None);
    first_fault_is(&rt, alloc, b"undo\nredo\r", Some(ScriptFault::Line(2)));
    first_fault_is(&rt, alloc, b"# \xff", Some(ScriptFault::Line(1)));
}
