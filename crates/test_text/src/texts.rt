//! The texts of statuses and of an image's faults.

use image_layout::{HeaderFault, ImageFault};
use script_text::OutBuf;
use tsd_model::Level;
use tsd_words::{Status, image_line, status_line};

#[test]
fn texts_of_statuses(rt: HostRuntime) {
    let mut line = OutBuf::new();
    for (status, code, text) in [
        (Status::Usage, 2, "tsd: usage\n"),
        (
            Status::NotImage(ImageFault::NotFormatted),
            3,
            "tsd: not an image: not-formatted\n",
        ),
        (Status::DeviceFault, 4, "tsd: device fault\n"),
        (Status::SourceFault, 5, "tsd: input fault\n"),
        (Status::PutFault, 6, "tsd: output fault\n"),
        (Status::TooLong, 7, "tsd: input too long\n"),
        (Status::NoMemory, 8, "tsd: no memory\n"),
        (Status::Truncated, 9, "tsd: input ends inside a frame\n"),
        (
            Status::RootDenied(Level::Bare),
            10,
            "tsd: root denied, none attained\n",
        ),
    ] {
        assert_eq!(rt; status.code(), code, "{text}");
        if status != Status::Done {
            status_line(&status, &mut line);
            assert_eq!(rt; line.as_slice(), text.as_bytes(), "{text}");
        }
    }
    assert_eq!(rt; Status::Done.code(), 0);
}

#[test]
fn texts_of_faults(rt: HostRuntime) {
    let mut line = OutBuf::new();
    for (fault, text) in [
        (ImageFault::Descriptor, "damaged descriptor\n"),
        (
            ImageFault::Header(HeaderFault::Version(3)),
            "header version 3\n",
        ),
        (
            ImageFault::Header(HeaderFault::Field {
                number: 1,
                found: 3,
            }),
            "header field 1 3\n",
        ),
        (
            ImageFault::Slot {
                slot: 5,
                source: 4_294_967_295,
                target: 0,
            },
            "damaged slot 5 4294967295 0\n",
        ),
        (
            ImageFault::Count {
                block: 1,
                stored: 2,
                found: 1,
            },
            "damaged count 1 2 1\n",
        ),
    ] {
        image_line(&fault, &mut line);
        assert_eq!(rt; line.as_slice(), text.as_bytes(), "{text}");
    }
}
