// What the program `branch`, which always has room, cannot show: short memory, and memory that is left alone.
use crate::X86;
use target::{Entry, Target, WriteFault, read_then_write, write_then_read};

#[test]
fn short_memory_is_refused_and_left(rt: HostRuntime) {
    let mut out = [9u8; 4];
    assert_eq!(rt;
        X86.write(Entry { kind: 16, form: 1 }.over(0), &mut out),
        Err(WriteFault::OutputShort)
    );
    assert_eq!(rt; out, [9, 9, 9, 9]);
}

#[test]
fn refusals_come_in_their_order(rt: HostRuntime) {
    let mut out = [9u8; 1];
    assert_eq!(rt;
        X86.write(Entry { kind: 19, form: 0 }.over(0), &mut out),
        Err(WriteFault::UnknownKind)
    );
    assert_eq!(rt;
        X86.write(Entry { kind: 16, form: 0 }.over(130), &mut out),
        Err(WriteFault::NotWritable)
    );
    assert_eq!(rt;
        X86.write(Entry { kind: 18, form: 1 }.over(0), &mut out),
        Err(WriteFault::NotWritable)
    );
    assert_eq!(rt;
        X86.write(Entry { kind: 16, form: 0 }.over(129), &mut out),
        Err(WriteFault::OutputShort)
    );
    assert_eq!(rt; out, [9]);
}

#[test]
fn memory_after_the_branch_is_left(rt: HostRuntime) {
    let mut out = [9u8; 7];
    assert_eq!(rt;
        X86.write(Entry { kind: 5, form: 1 }.over(0), &mut out),
        Ok(())
    );
    assert_eq!(rt; out, [0x0f, 0x85, 0xfa, 0xff, 0xff, 0xff, 9]);
}

#[test]
fn written_reads_back_and_read_writes_back(rt: HostRuntime) {
    let mut out = [0u8; 6];
    let jump = Entry { kind: 16, form: 1 }.over(-2);
    let read = write_then_read(&X86, jump, &mut out);
    assert!(rt; read == Ok(Some(jump)));
    let mut again = [0u8; 6];
    let written = read_then_write(&X86, &[0xe9, 0xf9, 0xff, 0xff, 0xff], &mut again);
    assert!(rt; written == Ok(Some(jump)));
    assert_eq!(rt; out, again);
}
