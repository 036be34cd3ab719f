// What the program `branch`, which always has room, cannot show: short memory, and memory that is left alone.
use crate::Riscv;
use target::{Entry, Target, WriteFault, read_then_write, write_then_read};

// beq x8, x0
const BEQ: u32 = 4096 + 32 * 8;

#[test]
fn short_memory_is_refused_and_left(rt: HostRuntime) {
    let mut out = [9u8; 7];
    assert_eq!(rt;
        Riscv.write(Entry { kind: BEQ, form: 2 }.over(4100), &mut out),
        Err(WriteFault::OutputShort)
    );
    assert_eq!(rt; out, [9, 9, 9, 9, 9, 9, 9]);
}

#[test]
fn refusals_come_in_their_order(rt: HostRuntime) {
    let mut out = [9u8; 1];
    assert_eq!(rt;
        Riscv.write(Entry { kind: 2, form: 0 }.over(1), &mut out),
        Err(WriteFault::UnknownKind)
    );
    assert_eq!(rt;
        Riscv.write(Entry { kind: 0, form: 3 }.over(0), &mut out),
        Err(WriteFault::NotWritable)
    );
    assert_eq!(rt;
        Riscv.write(Entry { kind: 0, form: 0 }.over(1), &mut out),
        Err(WriteFault::NotWritable)
    );
    assert_eq!(rt;
        Riscv.write(Entry { kind: 0, form: 0 }.over(2048), &mut out),
        Err(WriteFault::NotWritable)
    );
    assert_eq!(rt;
        Riscv.write(Entry { kind: 0, form: 0 }.over(2046), &mut out),
        Err(WriteFault::OutputShort)
    );
    assert_eq!(rt; out, [9]);
}

#[test]
fn memory_after_the_branch_is_left(rt: HostRuntime) {
    let mut out = [9u8; 10];
    assert_eq!(rt;
        Riscv.write(Entry { kind: BEQ, form: 2 }.over(4100), &mut out),
        Ok(())
    );
    assert_eq!(rt; out, [0x63, 0x14, 0x04, 0x00, 0x6f, 0x10, 0x00, 0x00, 9, 9]);
}

#[test]
fn written_reads_back_and_read_writes_back(rt: HostRuntime) {
    let mut out = [0u8; 8];
    let jump = Entry { kind: 0, form: 2 }.over(1_048_580);
    let read = write_then_read(&Riscv, jump, &mut out);
    assert!(rt; read == Ok(Some(jump)));
    let mut again = [0u8; 8];
    let row = [0x17, 0x03, 0x10, 0x00, 0x67, 0x00, 0x43, 0x00];
    let written = read_then_write(&Riscv, &row, &mut again);
    assert!(rt; written == Ok(Some(jump)));
    assert_eq!(rt; out, again);
}
