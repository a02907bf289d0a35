ghost use Rattle.std.specs.Prelude.{Some, true};
ghost use Rattle.examples_histories.specs.Scenes.{prepared};
ghost use Rattle.examples_histories.specs.Flight.{flight, begun_after_failure, third_in_flight, took_done_and_open, took_out_of_order, took_both};
ghost use Rattle.examples_histories.specs.Verdicts.{good, IsPermittedFrom, IsRefusedAt, HasVerdict, IsExactAt, AreCallsWithin};

/// Two in flight, and a stop in one of them.
pub fn flight_examples()
    ensures right { IsPermittedFrom prepared flight }
    ensures lawful { HasVerdict prepared flight good }
    ensures exact_44 { IsExactAt prepared 44 2 flight true }
    ensures calls_44 { AreCallsWithin prepared 10 44 2 9 108 flight }
    ensures begun_after_failure { IsRefusedAt prepared 6 begun_after_failure }
    ensures begun_after_failure_breaks { HasVerdict prepared begun_after_failure (record good { rolling = Some 6 }) }
    ensures third_in_flight { IsRefusedAt prepared 6 third_in_flight }
    ensures third_in_flight_breaks { HasVerdict prepared third_in_flight (record good { rolling = Some 6 }) }
    ensures took_done_and_open { IsRefusedAt prepared 8 took_done_and_open }
    ensures took_done_and_open_breaks { HasVerdict prepared took_done_and_open
        (record good { addresses = Some 8; tied = Some 8 }) }
    ensures took_out_of_order { IsRefusedAt prepared 7 took_out_of_order }
    ensures took_out_of_order_breaks { HasVerdict prepared took_out_of_order good }
    ensures took_both { IsPermittedFrom prepared took_both }
    ensures took_both_breaks { HasVerdict prepared took_both good }
{}
