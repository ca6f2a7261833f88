//! The texts of faults that no process prints.
use fa_cmds::WrongMagic;
use fa_image::ImageFault;
use fa_mount_headers::FormatFault;
use fa_texts::TextError;
use fa_types::GeometryFault;
use std::alloc::Global;
use std::fmt::Display;
use std::test::Fail;

/// Whether a fault has this text.
fn tells<D: Display>(alloc: Global, fault: &D, text: &str) -> bool {
    match format!(in alloc; "{fault}") {
        Ok(told) => told.as_str() == text,
        Err(_) => false,
    }
}

#[test]
fn texts_of_faults(rt: HostRuntime) -> Result<(), Fail> {
    let geometry = [
        (GeometryFault::Blocks, "blocks outside their limits"),
        (GeometryFault::Slots, "slots outside their limits"),
        (GeometryFault::PageBytes, "no size of a page"),
    ];
    for (fault, text) in geometry {
        ensure!(tells(rt.alloc(), &fault, text), at text);
    }
    let format = FormatFault {
        image: 2,
        fault: ImageFault::Sync,
    };
    ensure!(
        tells(
            rt.alloc(),
            &ImageFault::Program,
            "a slot could not be programmed"
        ) && tells(rt.alloc(), &WrongMagic, "wrong magic")
            && tells(rt.alloc(), &TextError::Line(7), "line 7")
            && tells(rt.alloc(), &TextError::NoMemory, "no memory")
            && tells(
                rt.alloc(),
                &format,
                "image 2: the image could not be synced"
            )
    );
    Ok(())
}
