//! The moves of a member of a queue that are no acts, each once.

use rl_queue::{
    Phase, QueueNames, QueueView, Stage, queue_holder, queue_idle, queue_join, queue_leave,
    queue_resume, queue_settled, queue_stage,
};
use rl_word::Class;
use std::alloc::AllocError as OutOfMemory;

#[test]
fn moves_that_are_no_acts(rt: HostRuntime) -> Result<(), OutOfMemory> {
    let names = QueueNames {
        queue: 4,
        tail: 0,
        tail_class: Class::Local,
        next: vec![in rt.alloc(); 1, 3]?,
        status: vec![in rt.alloc(); 2, 4]?,
        budget: Some(3),
    };
    let idle = queue_idle(1);
    assert_eq!(rt; queue_stage(idle), Stage::Idle);
    assert_eq!(rt; queue_stage(queue_join(idle)), Stage::Joining);
    let head = QueueView {
        member: 1,
        phase: Phase::Settle,
    };
    assert_eq!(rt; queue_stage(head), Stage::Settle);
    let settled = queue_settled(head, &names);
    assert_eq!(rt; queue_stage(settled), Stage::Granted { left: 3 });
    assert_eq!(rt; settled, queue_holder(1, 3));
    assert_eq!(rt; queue_stage(queue_leave(settled, true)), Stage::Leaving);
    let above = QueueView {
        member: 1,
        phase: Phase::Above { successor: Some(0) },
    };
    assert_eq!(rt; queue_stage(above), Stage::Above);
    let resumed = queue_resume(above);
    assert_eq!(rt; queue_stage(resumed), Stage::Leaving);
    let handing = Phase::Hand {
        successor: 0,
        left: 0,
    };
    assert_eq!(rt; resumed.phase, handing);
    Ok(())
}
