// Tables in memory, good ones and bad ones. The answers are the model's: tools/profiles-compare holds them to it.
use super::*;
use std::process::Abort;

fn says(rt: &(impl Abort + AllocGlobal), input: &[u8], wanted: &[u8]) {
    let mut buf = [0u8; 128];
    let mut waiting = Waiting::new();
    let mut source = input;
    let mut sink: Vec<u8> = Vec::new(rt.alloc());
    assert!(rt; talk(&mut source, &mut buf, &mut sink, &mut waiting).is_ok());
    assert!(rt; sink.as_slice() == wanted);
}

#[test]
fn tables_without_a_look(rt: HostRuntime) {
    says(&rt, b"", b"taken\n");
    says(&rt, b"0001 0000 ffff 1", b"taken\n");
    says(&rt, b"0001 0001 ffff 1\n", b"no 29 0001 0000\n");
    says(&rt, b"0001 0000 fffe 1\n", b"no 29 0001 ffff\n");
    says(
        &rt,
        b"0001 0000 8000 1\n0001 8000 ffff 2\n",
        b"no 30 0001 8000\n",
    );
    says(
        &rt,
        b"0001 0000 0000 1\n0001 0000 ffff 2\n",
        b"no 30 0001 0000\n",
    );
    says(
        &rt,
        b"0002 0000 0fff 1\n0001 0000 ffff 2\n0001 ffff ffff 3\n",
        b"no 30 0001 ffff\n",
    );
    says(
        &rt,
        b"0001 0000 0001 1\n0001 0001 ffff 2\n0001 0001 0001 0\n",
        b"no 28 2\n",
    );
    says(
        &rt,
        b"0001 0000 ffff 1\n0001 0002 0001 1\n0001 0000 ffff 0\n",
        b"no 28 1\n",
    );
}

#[test]
fn looks(rt: HostRuntime) {
    says(
        &rt,
        b"0001,0000,ffff,200\nlook 0001 ffff\nlook 0002 0000\n",
        b"profile 200\nnone\n",
    );
    says(
        &rt,
        b"0001,0000,fffe,200\nlook 0001 0000\nlook 0002 0000\n",
        b"no 29 0001 ffff\nno 29 0001 ffff\n",
    );
    says(&rt, b"look 0001 0000\n", b"none\n");
    says(
        &rt,
        b"0001,0000,ffff,2\nlook 0001 0000\n0002,0000,ffff,2\n",
        b"profile 2\nno 25\n",
    );
    says(
        &rt,
        b"0001,0000,ffff,2\nlook 0001 00000\nlook 0001 0000\n",
        b"no 25\n",
    );
    says(&rt, b"0001,0000,ffff,256\n", b"no 25\n");
}

// So many bad rows: one more than a table may have is named before any is looked at.
fn bad_rows(rt: &(impl Abort + AllocGlobal), count: usize, wanted: &[u8]) {
    let mut input: Vec<u8> = Vec::new(rt.alloc());
    for _ in 0..count {
        assert!(rt; input.extend_from_slice(b"0001 0000 ffff 0\n").is_ok());
    }
    says(rt, input.as_slice(), wanted);
}

#[test]
fn tables_of_many_rows(rt: HostRuntime) {
    bad_rows(&rt, 256, b"no 28 0\n");
    bad_rows(&rt, 257, b"no 28 256\n");
    bad_rows(&rt, 600, b"no 28 256\n");
}
