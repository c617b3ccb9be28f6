use arrayvec::ArrayVec;
use elf_loader::ElfError;
use ovl_io::{Bytes, FaultKind, ProcessState, Turn, Written};
use report_text::{
    Answer, Code, LINE_ROOM, Line, ROW_BYTES, Stop, answer_line, bad_line, checkpoint_line,
    dump_line, exported_line, image_line, list_line, process_line, stats_line, stop_line,
    turn_line,
};
use sizes::LINE_BYTES;
use std::test::Fail;

#[test]
fn answers_are_printed(rt: HostRuntime) -> Result<(), Fail> {
    let name = Bytes::new(Vec::from_slice(rt.alloc(), b"base")?);
    let long = Bytes::new(Vec::from_elem(rt.alloc(), b'n', 32)?);
    let rows: [(Answer, &[u8]); 9] = [
        (Answer::Done, b"ok\n"),
        (
            Answer::Loaded(1, 17, 0x10078),
            b"loaded 1 pages 17 entry 0x10078\n",
        ),
        (
            Answer::Loaded(32767, 65552, 0),
            b"loaded 32767 pages 65552 entry 0x0\n",
        ),
        (Answer::Forked(1, 32767), b"forked 1 32767\n"),
        (Answer::Saved(1, name, 2), b"saved 1 base 2\n"),
        (
            Answer::Saved(9, long, 10),
            b"saved 9 nnnnnnnnnnnnnnnnnnnnnnnnnnnnnnnn 10\n",
        ),
        (Answer::Shared(0), b"shared 0\n"),
        (Answer::Shared(131072), b"shared 131072\n"),
        (Answer::Full(33, 32), b"full 33 32\n"),
    ];
    let mut out = Line::new();
    for (answer, want) in &rows {
        answer_line(answer, &mut out);
        assert!(rt; out.as_slice() == *want);
    }
    Ok(())
}

#[test]
fn imports_are_printed(rt: HostRuntime) -> Result<(), Fail> {
    let name = Bytes::new(Vec::from_slice(rt.alloc(), b"c-0")?);
    let long = Bytes::new(Vec::from_elem(rt.alloc(), b'Z', 32)?);
    let rows: [(Answer, &[u8]); 2] = [
        (Answer::Imported(name, 3, 17), b"imported c-0 3 pages 17\n"),
        (
            Answer::Imported(long, 32767, 131072),
            b"imported ZZZZZZZZZZZZZZZZZZZZZZZZZZZZZZZZ 32767 pages 131072\n",
        ),
    ];
    let mut out = Line::new();
    for (answer, want) in &rows {
        answer_line(answer, &mut out);
        assert!(rt; out.as_slice() == *want);
    }
    Ok(())
}

#[test]
fn refusals_are_printed(rt: HostRuntime) -> Result<(), Fail> {
    let rows: [(Code, &[u8]); 16] = [
        (Code::NoProcess, b"refused C1 no-process\n"),
        (Code::NotSpeculating, b"refused C4 not-speculating\n"),
        (Code::NameTaken, b"refused C6 name-taken\n"),
        (Code::Unmapped(0x14000), b"refused C7 unmapped 0x14000\n"),
        (Code::Mapped(0x12000), b"refused C8 mapped 0x12000\n"),
        (Code::NumbersUsed, b"refused C9 numbers-used\n"),
        (Code::Outside, b"refused C10 outside\n"),
        (
            Code::Forbidden(0xFFFF_FFFF_FFFF_FFFF),
            b"refused C11 forbidden 0xffffffffffffffff\n",
        ),
        (Code::NotAlone, b"refused C12 not-alone\n"),
        (Code::FrameHere, b"refused C13 frame-here\n"),
        (Code::NotAlike(32), b"refused C14 not-alike 32\n"),
        (Code::TooLarge(4194305), b"refused C15 too-large 4194305\n"),
        (Code::Elf(ElfError::TooShort), b"refused E1 too-short\n"),
        (
            Code::Elf(ElfError::NothingToLoad),
            b"refused E14 nothing-to-load\n",
        ),
        (Code::ImageLine(65536), b"refused I1 bad-line 65536\n"),
        (Code::BadImage, b"refused I2 bad-image\n"),
    ];
    let mut out = Line::new();
    for (code, want) in rows {
        answer_line(&Answer::Refused(code), &mut out);
        assert!(rt; out.as_slice() == want);
    }
    Ok(())
}

#[test]
fn turns_are_printed(rt: HostRuntime) -> Result<(), Fail> {
    let mut out = Line::new();
    assert!(rt; !turn_line(1, &Turn::Stepped, &mut out));
    assert!(rt; turn_line(1, &Turn::Exited(7), &mut out));
    assert!(rt; out.as_slice() == b"exited 1 7\n".as_slice());
    assert!(rt; turn_line(2, &Turn::Faulted(FaultKind::Align, 0x1007A), &mut out));
    assert!(rt; out.as_slice() == b"faulted 2 align 0x1007a\n".as_slice());
    assert!(rt; turn_line(1, &Turn::Full(49, 48), &mut out));
    assert!(rt; out.as_slice() == b"full 1 49 48\n".as_slice());
    let mut bytes = ArrayVec::new();
    assert!(rt;
        bytes
            .try_extend_from_slice(b"hi\n \x1f~\x7f\\\xff\0")
            .is_ok()
    );
    assert!(rt; turn_line(3, &Turn::Wrote(Written { port: 2, bytes }), &mut out));
    assert!(rt; out.as_slice() == b"err 3 hi\\0a \\1f~\\7f\\5c\\ff\\00\n".as_slice());
    // as many as a process writes in one turn
    let zeros = Vec::from_elem(rt.alloc(), 0u8, 4096)?;
    let mut bytes = ArrayVec::new();
    assert!(rt; bytes.try_extend_from_slice(zeros.as_slice()).is_ok());
    assert!(rt; turn_line(1, &Turn::Wrote(Written { port: 1, bytes }), &mut out));
    assert!(rt; out.len() == 12295);
    assert!(rt; out.as_slice().starts_with(b"out 1 \\00\\00"));
    Ok(())
}

#[test]
fn endings_lists_and_counts_are_printed(rt: HostRuntime) -> Result<(), Fail> {
    let mut out = Line::new();
    let rows: [(u32, Stop, &[u8]); 5] = [
        (0, Stop::Idle, b"ran 0 idle\n"),
        (3, Stop::Ended, b"ran 3 ended\n"),
        (10_000_000, Stop::Limit, b"ran 10000000 limit\n"),
        (
            2,
            Stop::Break(1, 0x10080),
            b"break 1 0x10080\nran 2 break\n",
        ),
        (1, Stop::Full, b"ran 1 full\n"),
    ];
    for (taken, stop, want) in &rows {
        stop_line(*taken, stop, &mut out);
        assert!(rt; out.as_slice() == *want);
    }
    bad_line(65536, &mut out);
    assert!(rt; out.as_slice() == b"bad line 65536\n".as_slice());
    list_line(1, 0, &mut out);
    assert!(rt; out.as_slice() == b"list 1 0\n".as_slice());
    process_line(1, &ProcessState::Exited(7), false, 17, &mut out);
    assert!(rt; out.as_slice() == b"process 1 exited 7 pages 17\n".as_slice());
    process_line(2, &ProcessState::Running, true, 131072, &mut out);
    assert!(rt; out.as_slice() == b"process 2 running speculating pages 131072\n".as_slice());
    process_line(
        3,
        &ProcessState::Faulted(FaultKind::Store, 0),
        true,
        1,
        &mut out,
    );
    assert!(rt; out.as_slice() == b"process 3 faulted store 0x0 speculating pages 1\n".as_slice());
    let name = Bytes::new(Vec::from_slice(rt.alloc(), b"k")?);
    checkpoint_line(&name, 2, 17, &mut out);
    assert!(rt; out.as_slice() == b"checkpoint k 2 pages 17\n".as_slice());
    stats_line(36, 48, 8, 0, 18446744073709551615, &mut out);
    assert!(rt;
        out.as_slice() == b"units 36 of 48 lines 8 hits 0 misses 18446744073709551615\n".as_slice()
    );
    assert!(rt; LINE_ROOM == 16384);
    Ok(())
}

#[test]
fn images_are_printed(rt: HostRuntime) -> Result<(), Fail> {
    let mut out = Line::new();
    let name = Bytes::new(Vec::from_slice(rt.alloc(), b"b")?);
    let base = Bytes::new(Vec::from_slice(rt.alloc(), b"base-0")?);
    exported_line(&name, &base, 4194304, &mut out);
    assert!(rt; out.as_slice() == b"exported b base-0 4194304\n".as_slice());
    let rows: [(&[u8], &[u8]); 3] = [
        (b"\0", b"image 00\n"),
        (
            b"OVL1\x9a\xff\x0b\xc0\x17\x28\x3d\xe6",
            b"image 4f564c319aff0bc017283de6\n",
        ),
        (
            b"hi\n\xff\x80\x0f\xf0\x9a ~\x7f\x01\x02\x03\x04\xab",
            b"image 68690aff800ff09a207e7f01020304ab\n",
        ),
    ];
    for (bytes, want) in &rows {
        assert!(rt; bytes.len() <= LINE_BYTES);
        image_line(bytes, &mut out);
        assert!(rt; out.as_slice() == *want);
    }
    // as many as a line has
    image_line(&[0x5E; LINE_BYTES], &mut out);
    assert!(rt; out.len() == 135);
    assert!(rt; out.as_slice().ends_with(b"5e5e\n"));
    Ok(())
}

#[test]
fn bytes_of_memory_are_printed(rt: HostRuntime) -> Result<(), Fail> {
    let rows: [(u64, &[u8], &[u8]); 4] = [
        (0x10000, b"\0", b"0000000000010000 00\n"),
        (
            0x20010,
            b"hi\n\xff\x80\x0f\xf0\x9a ~\x7f\x01\x02\x03\x04\xab",
            b"0000000000020010 68 69 0a ff 80 0f f0 9a 20 7e 7f 01 02 03 04 ab\n",
        ),
        (
            0xFEDC_BA98_7654_3210,
            b"\x12\x21\xcd",
            b"fedcba9876543210 12 21 cd\n",
        ),
        (u64::MAX, b"\xef", b"ffffffffffffffff ef\n"),
    ];
    let mut out = Line::new();
    for (address, bytes, want) in &rows {
        assert!(rt; bytes.len() <= ROW_BYTES);
        dump_line(*address, bytes, &mut out);
        assert!(rt; out.as_slice() == *want);
    }
    assert!(rt; ROW_BYTES == 16);
    Ok(())
}
