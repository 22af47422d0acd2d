// A table of frames with their readings, written down from the format, and not from what the reader answers.
use gateway::{Fault, Message, count, keep_rest, piece, read, write};
use std::process::Abort;
use units::{
    Delay, Firm, FirmCount, NoOrders, Number, OpenOrders, Orders, Price, Quantity, Side, Time,
};

// The reference of each frame of the table.
const REFERENCE: [u8; 8] = [0, 255, b'R', b'E', b'F', b'"', b'8', b'9'];

// Kind, firm, side, the zero byte, then number, price, quantity, minimum, and delay or time, and the reference.
fn frame(header: [u8; 4], fields: [u32; 5]) -> [u8; 32] {
    let [kind, firm, side, zero] = header;
    let [n0, n1, n2, n3] = fields[0].to_le_bytes();
    let [p0, p1, p2, p3] = fields[1].to_le_bytes();
    let [q0, q1, q2, q3] = fields[2].to_le_bytes();
    let [m0, m1, m2, m3] = fields[3].to_le_bytes();
    let [t0, t1, t2, t3] = fields[4].to_le_bytes();
    let [r0, r1, r2, r3, r4, r5, r6, r7] = REFERENCE;
    [
        kind, firm, side, zero, n0, n1, n2, n3, p0, p1, p2, p3, q0, q1, q2, q3, m0, m1, m2, m3, t0,
        t1, t2, t3, r0, r1, r2, r3, r4, r5, r6, r7,
    ]
}

// A fault as the numbers of its layer and of its refusal, its place and its byte.
fn numbered<T: Drop>(answer: Result<T, Fault>) -> Result<T, [usize; 4]> {
    answer.map_err(|fault| {
        [
            usize::from(u8::from(fault.layer)),
            usize::from(u8::from(fault.refusal)),
            fault.place,
            fault.byte,
        ]
    })
}

// A frame at place 3 says what is expected, and is the one that is written of it.
fn says<O: Orders>(rt: &impl Abort, bytes: &[u8; 32], expected: Message<O>) {
    let mut again = [9u8; 32];
    assert_eq!(rt; write(&expected, &mut again), Ok(()));
    assert_eq!(rt; again, *bytes);
    assert_eq!(rt; read::<O>(bytes, 3), Ok(expected));
}

// What should be a frame at place 3 is refused with this layer, number and byte.
fn refuses<O: Orders>(rt: &impl Abort, bytes: &[u8], expected: [usize; 3]) {
    let [layer, number, byte] = expected;
    assert_eq!(rt;
        numbered(read::<O>(bytes, 3)),
        Err([layer, number, 3, byte])
    );
}

#[test]
fn frames_say_their_messages(rt: HostRuntime) {
    says::<OpenOrders>(
        &rt,
        &frame([1, 4, 2, 0], [0, 980, 1000, 0, 0]),
        Message::Order {
            permission: OpenOrders,
            firm: Firm(4),
            side: Some(Side::Sell),
            price: Price(980),
            quantity: Quantity(1000),
            reference: &REFERENCE,
        },
    );
    says::<OpenOrders>(
        &rt,
        &frame([2, 2, 0, 0], [3, 0, 0, 0, 0]),
        Message::Withdrawal {
            firm: Firm(2),
            number: Number(3),
            reference: &REFERENCE,
        },
    );
    says::<NoOrders>(
        &rt,
        &frame([3, 1, 0, 0], [0, 0, 5000, 10, 180]),
        Message::ManualRequest {
            firm: Firm(1),
            side: None,
            quantity: Quantity(5000),
            min_units: Quantity(10),
            delay: Delay(180),
            reference: &REFERENCE,
        },
    );
    says::<NoOrders>(
        &rt,
        &frame([4, 1, 1, 0], [0, 992, 5000, 2, 180]),
        Message::AutoRequest {
            firm: Firm(1),
            side: Some(Side::Buy),
            limit: Price(992),
            quantity: Quantity(5000),
            min_firms: FirmCount(2),
            delay: Delay(180),
            reference: &REFERENCE,
        },
    );
    says::<NoOrders>(
        &rt,
        &frame([5, 255, 2, 0], [u32::MAX, u32::MAX, u32::MAX, 0, 0]),
        Message::Answer {
            firm: Firm(255),
            side: Some(Side::Sell),
            request: Number(u32::MAX),
            price: Price(u32::MAX),
            quantity: Quantity(u32::MAX),
            reference: &REFERENCE,
        },
    );
    says::<OpenOrders>(
        &rt,
        &frame([6, 1, 1, 0], [2, 992, 0, 0, 0]),
        Message::Confirmation {
            firm: Firm(1),
            side: Some(Side::Buy),
            request: Number(2),
            price: Price(992),
            reference: &REFERENCE,
        },
    );
    says::<OpenOrders>(
        &rt,
        &frame([7, 0, 0, 0], [0, 0, 0, 0, 0x0102_0304]),
        Message::Clock {
            time: Time(0x0102_0304),
            reference: &REFERENCE,
        },
    );
}

#[test]
fn a_frame_byte_by_byte(rt: HostRuntime) {
    let answer: [u8; 32] = [
        5, 2, 2, 0, 2, 0, 0, 0, 0xde, 3, 0, 0, 0xd0, 7, 0, 0, 0, 0, 0, 0, 0, 0, 0, 0, 0x41, 0x4e,
        0x53, 0x57, 0x45, 0x52, 0x2d, 0x31,
    ];
    says::<OpenOrders>(
        &rt,
        &answer,
        Message::Answer {
            firm: Firm(2),
            side: Some(Side::Sell),
            request: Number(2),
            price: Price(990),
            quantity: Quantity(2000),
            reference: b"ANSWER-1",
        },
    );
    match read::<OpenOrders>(&answer, 0) {
        Ok(Message::Answer { reference, .. }) => {
            assert!(rt; reference == b"ANSWER-1".as_slice());
        },
        _ => assert!(rt; false),
    }
}

#[test]
fn frames_are_refused_in_the_order_of_the_checks(rt: HostRuntime) {
    let order = frame([1, 4, 2, 0], [0, 980, 1000, 0, 0]);
    refuses::<OpenOrders>(&rt, &order[0..31], [1, 1, 0]);
    refuses::<OpenOrders>(&rt, &[], [1, 1, 0]);
    refuses::<NoOrders>(&rt, &order, [2, 2, 0]);
    refuses::<OpenOrders>(&rt, &frame([0, 0, 0, 0], [0; 5]), [2, 2, 0]);
    refuses::<OpenOrders>(&rt, &frame([8, 0, 9, 9], [0; 5]), [2, 2, 0]);
    refuses::<OpenOrders>(&rt, &frame([1, 4, 9, 1], [0, 980, 1000, 0, 0]), [2, 3, 3]);
    refuses::<OpenOrders>(&rt, &frame([2, 2, 0, 0], [3, 256, 0, 0, 0]), [2, 3, 9]);
    refuses::<OpenOrders>(&rt, &frame([2, 2, 3, 0], [3, 0, 0, 0, 0]), [2, 3, 2]);
    refuses::<OpenOrders>(&rt, &frame([7, 1, 3, 1], [0, 0, 0, 0, 5]), [2, 3, 1]);
    refuses::<OpenOrders>(
        &rt,
        &frame([6, 1, 3, 0], [2, 992, 0, 0, 1 << 24]),
        [2, 3, 23],
    );
    refuses::<OpenOrders>(&rt, &frame([6, 1, 3, 0], [2, 992, 0, 0, 0]), [2, 4, 2]);
}

// A clock step whose reference has n bytes is not written.
fn not_written(rt: &impl Abort, bytes: &[u8]) {
    let message: Message = Message::Clock {
        time: Time(5),
        reference: bytes,
    };
    let mut out = [7u8; 32];
    assert_eq!(rt; numbered(write(&message, &mut out)), Err([1, 1, 0, 0]));
    assert_eq!(rt; out, [7; 32]);
}

#[test]
fn references_have_eight_bytes(rt: HostRuntime) {
    not_written(&rt, b"");
    not_written(&rt, b"seven..");
    not_written(&rt, b"nine.....");
}

#[test]
fn files_are_cut(rt: HostRuntime) {
    let file = [1u8; 69];
    assert_eq!(rt; count(&file[0..0]), 0);
    assert_eq!(rt; count(&file[0..32]), 1);
    assert_eq!(rt; count(&file), 3);
    assert_eq!(rt; piece(&file, 1, 1), Some(Ok(&file[32..64])));
    assert_eq!(rt; piece(&file, 2, 12).map(numbered), Some(Err([1, 1, 12, 0])));
    assert_eq!(rt; piece(&file, 3, 3), None);
}

#[test]
fn a_short_rest_is_kept(rt: HostRuntime) {
    let mut buffer = [0u8; 100];
    buffer[64] = 5;
    buffer[68] = 6;
    assert_eq!(rt; keep_rest(&mut buffer, 69), 5);
    assert_eq!(rt; buffer[0], 5);
    assert_eq!(rt; buffer[4], 6);
    assert_eq!(rt; buffer[68], 6);
    assert_eq!(rt; keep_rest(&mut buffer, 1000), 4);
}
