//! The rows of the event table, told by replies that a plain model of it gave.

use hlo_num::Seq;
use naim_core::{CoreState, Event, Failure, Form, Mode, Refusal, replay};

#[test]
fn compact_form_above_the_limit(rt: HostRuntime) {
    let insert = Event::Insert {
        pid: 0,
        form: Form::Compacted,
        e: 20,
        c: 11,
    };
    let made = CoreState::new(rt.alloc(), 10, 2);
    assert!(rt; made.is_ok());
    if let Ok(mut state) = made {
        assert!(rt; state.step(insert) == Err(Refusal::TooSmall(11)));
        assert_eq!(rt; state.used(), 0);
        assert_eq!(rt; state.under(), 0);
    }
}

#[test]
fn no_slot_is_left(rt: HostRuntime) {
    let made = CoreState::new(rt.alloc(), 5000, 1);
    assert!(rt; made.is_ok());
    if let Ok(mut state) = made {
        for pid in 0..4096 {
            let insert = Event::Insert {
                pid,
                form: Form::Compacted,
                e: 1,
                c: 1,
            };
            assert!(rt; state.step(insert) == Ok(()));
        }
        let one_more = Event::Insert {
            pid: 4096,
            form: Form::Compacted,
            e: 1,
            c: 1,
        };
        assert!(rt; state.step(one_more) == Err(Refusal::Full));
        assert_eq!(rt; state.used(), 4096);
    }
}

#[test]
fn each_event_and_each_refusal(rt: HostRuntime) {
    let wave = vec![in rt.alloc(); 3, 2].expect(&rt, "memory");
    let events = vec![in rt.alloc();
        Event::Insert {
            pid: 1,
            form: Form::Expanded,
            e: 40,
            c: 10
        },
        Event::Insert {
            pid: 1,
            form: Form::Expanded,
            e: 40,
            c: 10
        },
        Event::Insert {
            pid: 2,
            form: Form::Expanded,
            e: 30,
            c: 20
        },
        Event::Insert {
            pid: 3,
            form: Form::Expanded,
            e: 50,
            c: 20
        },
        Event::Insert {
            pid: 3,
            form: Form::Compacted,
            e: 300,
            c: 101
        },
        Event::Insert {
            pid: 3,
            form: Form::Compacted,
            e: 5,
            c: 9
        },
        Event::Insert {
            pid: 3,
            form: Form::Compacted,
            e: 25,
            c: 20
        },
        Event::PinRead { worker: 0, pid: 9 },
        Event::PinRead { worker: 0, pid: 3 },
        Event::PinRead { worker: 0, pid: 1 },
        Event::PinRead { worker: 0, pid: 2 },
        Event::PinRead { worker: 1, pid: 1 },
        Event::PinWrite {
            worker: 1,
            pid: 1,
            room: 90
        },
        Event::Remove { pid: 1 },
        Event::CompactBegin {
            worker: 0,
            pid: 2,
            wanted: 10
        },
        Event::CompactBegin {
            worker: 0,
            pid: 1,
            wanted: 90
        },
        Event::CompactBegin {
            worker: 0,
            pid: 2,
            wanted: 90
        },
        Event::Remove { pid: 2 },
        Event::CompactEnd { worker: 1, pid: 2 },
        Event::CompactEnd { worker: 0, pid: 2 },
        Event::OffloadBegin {
            worker: 0,
            pid: 2,
            wanted: 90
        },
        Event::OffloadBegin {
            worker: 1,
            pid: 3,
            wanted: 90
        },
        Event::OffloadEnd { worker: 0, pid: 2 },
        Event::ReloadBegin {
            worker: 1,
            pid: 2,
            mode: Mode::Write { room: 60 }
        },
        Event::ReloadEnd { worker: 1, pid: 2 },
        Event::UnpinWrite {
            worker: 1,
            pid: 2,
            form: Form::Expanded,
            e: 50,
            c: 20
        },
        Event::UnpinRead {
            worker: 0,
            pid: 1,
            form: Form::Expanded
        },
        Event::UnpinRead {
            worker: 1,
            pid: 1,
            form: Form::Expanded
        },
        Event::UnpinWrite {
            worker: 1,
            pid: 2,
            form: Form::Expanded,
            e: 40,
            c: 20
        },
        Event::UnpinRead {
            worker: 1,
            pid: 1,
            form: Form::Expanded
        },
        Event::BeginWave {
            tasks: Seq::from_vec(wave)
        },
        Event::EndWave,
        Event::Claim { worker: 0 },
        Event::Claim { worker: 0 },
        Event::PinWrite {
            worker: 0,
            pid: 2,
            room: 9
        },
        Event::Fail {
            worker: 0,
            failure: Failure::Memory
        },
        Event::EndWave,
    ]
    .expect(&rt, "memory");
    let expected = [
        Ok(()),
        Err(Refusal::Present),
        Ok(()),
        Err(Refusal::NeedsRoom(50)),
        Err(Refusal::TooSmall(101)),
        Err(Refusal::BadSize),
        Ok(()),
        Err(Refusal::Absent),
        Err(Refusal::WrongForm),
        Ok(()),
        Err(Refusal::HandFull),
        Ok(()),
        Err(Refusal::InUse),
        Err(Refusal::InUse),
        Err(Refusal::Fits),
        Err(Refusal::NotVictim),
        Ok(()),
        Err(Refusal::Moving),
        Err(Refusal::NotHeld),
        Ok(()),
        Ok(()),
        Err(Refusal::DiskOut),
        Ok(()),
        Ok(()),
        Ok(()),
        Err(Refusal::BadSize),
        Ok(()),
        Ok(()),
        Ok(()),
        Err(Refusal::NotHeld),
        Ok(()),
        Err(Refusal::InUse),
        Ok(()),
        Err(Refusal::HandFull),
        Err(Refusal::NoTask),
        Ok(()),
        Err(Refusal::Stopped),
    ];
    let (state, replies) = replay(rt.alloc(), 100, 2, events).expect(&rt, "memory");
    assert!(rt; replies.as_slice() == expected.as_slice());
    assert_eq!(rt; state.under(), 100);
    assert_eq!(rt; state.used(), 3);
    assert!(rt; state.disk_home());
    assert_eq!(rt; state.task(0), Some(3));
    assert_eq!(rt; state.next_task(), Some(2));
    assert_eq!(rt; state.failure().copied(), Some(Failure::Memory));
}
