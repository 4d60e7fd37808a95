use kv_outside::Clock;
use kv_real::SystemClock;

#[test]
fn reads_the_time(rt: HostRuntime) {
    let mut clock = SystemClock::new(rt);
    // between the years 2020 and 2200
    let now = clock.now();
    assert!(rt;
        1_577_836_800_000 < now && now < 7_258_118_400_000,
        "at {now}"
    );
}
