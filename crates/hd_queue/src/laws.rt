//! The law of queues.
ghost use Rattle.hd_queue.specs.Laws.{QueuesStayInOrder};

/// A hold that is put at its stamp leaves the stamps rising, and each patron with one hold at most, the new
/// one its patron's; so does one that is taken.
pub fn queues_stay_in_order()
    ensures { QueuesStayInOrder }
{}
