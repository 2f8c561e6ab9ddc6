//! Managers of all sizes, within their ranges and past them.

use lock_manager::{Config, Manager, Refusal};
use std::process::Abort;
use std::test::Fail;

/// A configuration: how many sessions, with how many entries and groups of slots each, and whether a usual
/// manager and a server's can have that.
static CONFIGURATIONS: [(u32, u32, u32, bool, bool); 17] = [
    (0, 8, 1, false, false),
    (65, 8, 1, false, true),
    (8, 0, 1, false, false),
    (8, 65_537, 1, false, false),
    (0, 0, 1, false, false),
    (8, 8, 0, false, false),
    (8, 8, 9, false, false),
    (0, 0, 0, false, false),
    (1, 8, 1, true, true),
    (64, 8, 1, true, true),
    (8, 1, 1, true, true),
    (8, 65_536, 1, true, true),
    (8, 8, 8, true, true),
    (64, 65_536, 8, true, true),
    (1_024, 65_536, 8, false, true),
    (1_025, 8, 1, false, false),
    (1_024, 0, 1, false, false),
];

/// Ends the test unless a manager of `config` was refused, by `refusal`, exactly where a number is out of its
/// range, and the configuration, which `says` whether all are within it, says so itself.
fn expect_made<R: Abort>(
    rt: &R,
    refusal: Option<Refusal>,
    config: Config,
    says: bool,
    is_in_range: bool,
) {
    let expected = if is_in_range {
        None
    } else {
        Some(Refusal::BadConfig)
    };
    assert!(rt; says == is_in_range);
    let Config {
        sessions,
        max_local,
        slot_groups,
    } = config;
    assert_eq!(rt;
        refusal,
        expected,
        "{sessions}, {max_local} and {slot_groups}"
    );
}

#[test]
fn a_manager_is_made_within_the_ranges_of_its_configuration_alone(
    rt: HostRuntime,
) -> Result<(), Fail> {
    for (sessions, max_local, slot_groups, is_in_range, is_in_server_range) in &CONFIGURATIONS {
        let config = Config {
            sessions: *sessions,
            max_local: *max_local,
            slot_groups: *slot_groups,
        };
        let refusal = Manager::new(rt.alloc(), config).err();
        expect_made(&rt, refusal, config, config.is_in_range(), *is_in_range);
        let refusal = Manager::for_server(rt.alloc(), config).err();
        let says = config.is_in_server_range();
        expect_made(&rt, refusal, config, says, *is_in_server_range);
    }
    Ok(())
}
