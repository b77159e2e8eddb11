// Texts of some pictures.
use dev_io::MemOut;
use sequences::Text;
use show_prog::{KeyRef, MixKind, Picture, print_show};
use std::alloc::{AllocError, Global};
use std::process::Abort;
use std::test::Fail;

fn frame<'a>(key: KeyRef<'a>, number: i128) -> Picture<'a> {
    Picture::Frame { key, number }
}

fn mix<'a>(
    alloc: Global,
    kind: MixKind<'a>,
    num: i128,
    from: Picture<'a>,
    to: Picture<'a>,
) -> Result<Picture<'a>, AllocError> {
    Ok(Picture::Mix {
        kind,
        from: Box::new(alloc, from)?,
        to: Box::new(alloc, to)?,
        num,
        den: 12,
    })
}

// Compares what is sent for a picture with a text.
fn prints(rt: &impl Abort, alloc: Global, picture: &Picture<'_>, want: &str) -> Result<(), Fail> {
    let mut out = MemOut::new(alloc, 200)?;
    let printed = print_show(picture, &mut out);
    assert!(rt; out.sent() == want.as_bytes());
    drop(out);
    printed?;
    Ok(())
}

fn check(rt: &impl Abort, alloc: Global, picture: Picture<'_>, want: &str) -> Result<(), Fail> {
    let held = prints(rt, alloc, &picture, want);
    drop(picture);
    held
}

fn sequence(texts: &[Text; 3]) -> Picture<'_> {
    let [base, prefix, suffix] = texts;
    frame(KeyRef::Sequence(base, prefix, suffix), 0)
}

fn check_keys(rt: &impl Abort, alloc: Global, text: &Text) -> Result<(), Fail> {
    check(rt, alloc, Picture::Blank, "-")?;
    check(rt, alloc, frame(KeyRef::Url(text), 66), "url:\"a.mov\"@66")?;
    check(
        rt,
        alloc,
        frame(KeyRef::Generator(text), 0),
        "gen:\"a.mov\"@0",
    )?;
    check(
        rt,
        alloc,
        frame(KeyRef::Reel(text), 54),
        "reel:\"a.mov\"@54",
    )?;
    check(
        rt,
        alloc,
        frame(KeyRef::Name(text), -3),
        "name:\"a.mov\"@-3",
    )
}

#[test]
fn frames_by_their_keys(rt: HostRuntime) -> Result<(), Fail> {
    let alloc = rt.alloc();
    let text = Text::of(alloc, "a.mov")?;
    let held = check_keys(&rt, alloc, &text);
    drop(text);
    held
}

#[test]
fn a_frame_of_a_sequence(rt: HostRuntime) -> Result<(), Fail> {
    let alloc = rt.alloc();
    let texts = [
        Text::of(alloc, "day \"4\"/")?,
        Text::of(alloc, "sky.")?,
        Text::of(alloc, ".exr")?,
    ];
    check(
        &rt,
        alloc,
        sequence(&texts),
        "seq:\"day \\\"4\\\"/sky.#.exr\"@0",
    )
}

#[test]
fn mixes_of_two(rt: HostRuntime) -> Result<(), Fail> {
    let alloc = rt.alloc();
    let a = Text::of(alloc, "a.mov")?;
    let b = Text::of(alloc, "b.mov")?;
    let of_two = mix(
        alloc,
        MixKind::Dissolve,
        11,
        frame(KeyRef::Url(&a), 77),
        frame(KeyRef::Url(&b), 105),
    )?;
    check(
        &rt,
        alloc,
        of_two,
        "mix(dissolve 11/12 url:\"a.mov\"@77 url:\"b.mov\"@105)",
    )
}

#[test]
fn a_mix_in_a_mix(rt: HostRuntime) -> Result<(), Fail> {
    let alloc = rt.alloc();
    let kind = Text::of(alloc, "iris \"in\"")?;
    let inner = mix(
        alloc,
        MixKind::Other(&kind),
        5,
        Picture::Blank,
        frame(KeyRef::Name(&kind), -1),
    )?;
    let outer = mix(alloc, MixKind::Wipe(7), 1, inner, Picture::Blank)?;
    check(
        &rt,
        alloc,
        outer,
        "mix(wipe 007 1/12 mix(\"iris \\\"in\\\"\" 5/12 - name:\"iris \\\"in\\\"\"@-1) -)",
    )
}
