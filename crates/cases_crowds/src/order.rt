use crate::crowd::Plan;
use crate::marks::Mark;

/// Whether a thread's notes are its counts from 0 on, in order, and so many.
fn is_in_order_of(marks: &[Mark], thread: u64, times: u64) -> bool {
    let mut next = 0;
    for mark in marks {
        if mark.thread == thread {
            if mark.count != next {
                return false;
            }
            next = mark.count.wrapping_add(1);
        }
    }
    next == times
}

/// Whether the notes are those of all threads, each thread's in order.
pub fn is_in_order(marks: &[Mark], plan: Plan) -> bool {
    for thread in 0..plan.threads {
        if !is_in_order_of(marks, thread, plan.times) {
            return false;
        }
    }
    marks.len() as u64 == plan.all()
}
