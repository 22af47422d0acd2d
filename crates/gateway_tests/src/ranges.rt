// Each range at its bounds, written down from the table of units.
use units::{Delay, Firm, FirmCount, Lot, Money, Number, Price, Quantity, Ranged, Time};

#[test]
fn ranges_end_where_they_should(rt: HostRuntime) {
    assert!(rt; !Price(0).in_range() && Price(1).in_range());
    assert!(rt; Price(1_000_000_000).in_range() && !Price(1_000_000_001).in_range());
    assert!(rt;
        !Lot(0).in_range() && Lot(1).in_range() && Lot(1_000).in_range() && !Lot(1_001).in_range()
    );
    assert!(rt; !Firm(0).is_member() && Firm(1).is_member() && Firm(255).is_member());
    assert!(rt; !Number(0).in_range() && Number(1).in_range());
    assert!(rt; Number(2_000_000).in_range() && !Number(2_000_001).in_range());
    assert!(rt; Time(0).in_range() && Time(86_400_000).in_range() && !Time(86_400_001).in_range());
    assert!(rt;
        !Delay(0).in_range()
            && Delay(1).in_range()
            && Delay(180).in_range()
            && !Delay(181).in_range()
    );
    assert!(rt; FirmCount(0).in_range() && FirmCount(64).in_range() && !FirmCount(65).in_range());
}

#[test]
fn quantities_are_whole_lots(rt: HostRuntime) {
    let ten = Lot(10);
    assert!(rt;
        !Quantity(0).in_range(ten) && Quantity(10).in_range(ten) && !Quantity(15).in_range(ten)
    );
    assert!(rt; Quantity(1_000_000).in_range(ten) && !Quantity(1_000_010).in_range(ten));
    assert!(rt;
        ten.divides(Quantity(0))
            && ten.divides(Quantity(4_294_967_290))
            && !ten.divides(Quantity(u32::MAX))
    );
    assert!(rt; Lot(0).divides(Quantity(0)) && !Lot(0).divides(Quantity(1)));
    assert_eq!(rt;
        Price(u32::MAX).times(Quantity(u32::MAX)),
        Money(18_446_744_065_119_617_025)
    );
}
