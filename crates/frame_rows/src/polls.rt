//! Places in a parallel poll, and status bytes.

use il_poll::ServiceState;

// A row: what PPE set, the status, an identify byte and what it is after the device.
static POLLS: [(Option<u8>, u8, u8, u8); 8] = [
    (None, 3, 0x00, 0x00),
    (Some(8), 3, 0x00, 0x01),
    (Some(8), 0, 0x00, 0x00),
    (Some(0), 0, 0x00, 0x01),
    (Some(0), 3, 0x00, 0x00),
    (Some(15), 1, 0x01, 0x81),
    (Some(15), 0, 0x81, 0x81),
    (Some(7), 63, 0x55, 0x55),
];

#[test]
fn polls(rt: HostRuntime) {
    for (ppe, status, byte, behind) in POLLS {
        let mut service = ServiceState::default();
        if let Some(n) = ppe {
            assert!(rt; n < 16);
            service.on_ppe(n);
        }
        assert!(rt; status < 64);
        service.set(status);
        assert!(rt; service.on_idy(byte) == behind, "polled, status {status}");
        service.on_ppd();
        assert!(rt; service.assignment().is_none(), "no place");
        assert!(rt; service.on_idy(byte) == byte, "not polled, status {status}");
    }
}

#[test]
fn status_bytes(rt: HostRuntime) {
    let mut service = ServiceState::new();
    for (status, wants, answer) in [(0, false, 0x00), (3, true, 0x43), (63, true, 0x7F)] {
        assert!(rt; status < 64);
        service.set(status);
        assert!(rt; service.wants() == wants, "wants, status {status}");
        assert!(rt; service.status_byte() == answer, "byte, status {status}");
    }
}
