use rulebook::centre::ClearingCentre;
use rulebook::fault::OutOfRange;
use rulebook::lots::LotsCentre;
use rulebook::pledge::PledgeCentre;
use std::test::Fail;

// What the lots centre with this number for contract 32 alone tells, or none where it is not made.
fn lots(limit: u64, account: u32, contract: u32) -> Option<u32> {
    let mut limits = [None; 32];
    limits[31] = Some(limit);
    let centre = LotsCentre::new(limits).ok()?;
    Some(centre.most_lots(account, contract))
}

#[test]
fn the_lots_centre_has_a_number_for_each_contract(rt: HostRuntime) {
    assert_eq!(rt; lots(0, 1, 32), Some(0));
    assert_eq!(rt; lots(100, 1, 32), Some(100));
    assert_eq!(rt; lots(1_000_000, 1, 32), Some(1_000_000));
    assert_eq!(rt; lots(1_000_001, 1, 32), None);
    assert_eq!(rt; lots(u64::MAX, 1, 32), None);
    assert_eq!(rt; lots(100, 0, 32), Some(100));
    assert_eq!(rt; lots(100, u32::MAX, 32), Some(100));
    assert_eq!(rt; lots(100, 1, 0), Some(0));
    assert_eq!(rt; lots(100, 1, 1), Some(0));
    assert_eq!(rt; lots(100, 1, 33), Some(0));
    assert_eq!(rt; lots(100, 1, u32::MAX), Some(0));
}

// What the pledge centre with these numbers for account 64 and contract 32 alone tells, or none where it is not made.
fn pledged(pledge: u64, margin: u64, account: u32, contract: u32) -> Option<u32> {
    let mut pledges = [None; 64];
    let mut margins = [None; 32];
    pledges[63] = Some(pledge);
    margins[31] = Some(margin);
    let centre = PledgeCentre::new(pledges, margins).ok()?;
    Some(centre.most_lots(account, contract))
}

#[test]
fn the_pledge_centre_divides(rt: HostRuntime) {
    assert_eq!(rt; pledged(0, 1, 64, 32), Some(0));
    assert_eq!(rt; pledged(99, 100, 64, 32), Some(0));
    assert_eq!(rt; pledged(100, 100, 64, 32), Some(1));
    assert_eq!(rt; pledged(199, 100, 64, 32), Some(1));
    assert_eq!(rt; pledged(1_000_000, 1, 64, 32), Some(1_000_000));
    assert_eq!(rt; pledged(1_000_001, 1, 64, 32), Some(1_000_000));
    assert_eq!(rt; pledged(1_000_000_000_000, 1, 64, 32), Some(1_000_000));
    assert_eq!(rt;
        pledged(1_000_000_000_000, 1_000_000_000, 64, 32),
        Some(1_000)
    );
}

#[test]
fn the_pledge_centre_needs_both(rt: HostRuntime) {
    assert_eq!(rt; pledged(100, 1, 63, 32), Some(0));
    assert_eq!(rt; pledged(100, 1, 64, 31), Some(0));
    assert_eq!(rt; pledged(100, 1, 0, 32), Some(0));
    assert_eq!(rt; pledged(100, 1, 65, 32), Some(0));
    assert_eq!(rt; pledged(100, 1, 64, 0), Some(0));
    assert_eq!(rt; pledged(100, 1, 64, 33), Some(0));
}

#[test]
fn a_centre_is_not_made_of_numbers_out_of_range(rt: HostRuntime) {
    assert_eq!(rt; pledged(1_000_000_000_001, 1, 64, 32), None);
    assert_eq!(rt; pledged(1, 0, 64, 32), None);
    assert_eq!(rt; pledged(1, 1_000_000_001, 64, 32), None);
    let mut limits = [Some(100); 32];
    limits[4] = Some(1_000_001);
    limits[9] = Some(1_000_001);
    assert!(rt; matches!(LotsCentre::new(limits), Err(OutOfRange::Limit(5))));
    let mut pledges = [None; 64];
    let mut margins = [Some(100); 32];
    margins[0] = Some(0);
    assert!(rt;
        matches!(
            PledgeCentre::new(pledges, margins),
            Err(OutOfRange::Margin(1))
        )
    );
    pledges[63] = Some(u64::MAX);
    assert!(rt;
        matches!(
            PledgeCentre::new(pledges, margins),
            Err(OutOfRange::Pledge(64))
        )
    );
}

#[test]
fn a_fault_is_told_in_words(rt: HostRuntime) -> Result<(), Fail> {
    let limit = OutOfRange::Limit(5).to_string(rt.alloc())?;
    let pledge = OutOfRange::Pledge(64).to_string(rt.alloc())?;
    let margin = OutOfRange::Margin(1).to_string(rt.alloc())?;
    assert_eq!(rt; limit.as_str(), "the limit of contract 5 is out of range");
    assert_eq!(rt; pledge.as_str(), "the pledge of account 64 is out of range");
    assert_eq!(rt; margin.as_str(), "the margin of contract 1 is out of range");
    Ok(())
}
