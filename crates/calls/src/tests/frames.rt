ghost use Rattle.std.specs.Prelude.{◌≡◌, ◌<◌, length};

use frame_pool::FramePool;
use std::process::Abort;
use std::test::Fail;

// One more page names a frame, which few name.
fn hold(rt: &impl Abort, pool: &mut FramePool, f: u32)
    requires { f < length pool.old }
    ensures { length pool.new ≡ length pool.old }
{
    assert!(rt; pool.sharers(f) < 1000);
    pool.hold(f);
}

// One page fewer names a frame, which one names.
fn release(rt: &impl Abort, pool: &mut FramePool, f: u32) -> bool
    requires { f < length pool.old }
    ensures { length pool.new ≡ length pool.old }
{
    assert!(rt; pool.sharers(f) > 0);
    pool.release(f)
}

#[test]
fn pages_name_frames_and_let_them_go(rt: HostRuntime) -> Result<(), Fail> {
    let mut pool = FramePool::new(rt.alloc(), 3)?;
    hold(&rt, &mut pool, 0);
    hold(&rt, &mut pool, 2);
    hold(&rt, &mut pool, 2);
    assert_eq!(rt;
        (pool.sharers(0), pool.sharers(1), pool.sharers(2)),
        (1, 0, 2)
    );
    assert!(rt; !release(&rt, &mut pool, 2));
    assert!(rt; release(&rt, &mut pool, 0));
    assert_eq!(rt;
        (pool.sharers(0), pool.sharers(1), pool.sharers(2)),
        (0, 0, 1)
    );
    assert!(rt; release(&rt, &mut pool, 2));
    hold(&rt, &mut pool, 1);
    assert_eq!(rt;
        (pool.sharers(0), pool.sharers(1), pool.sharers(2)),
        (0, 1, 0)
    );
    Ok(())
}

#[test]
fn the_last_frame_is_a_frame(rt: HostRuntime) -> Result<(), Fail> {
    let mut pool = FramePool::new(rt.alloc(), 65_536)?;
    hold(&rt, &mut pool, 65_535);
    assert_eq!(rt; (pool.sharers(65_534), pool.sharers(65_535)), (0, 1));
    Ok(())
}
