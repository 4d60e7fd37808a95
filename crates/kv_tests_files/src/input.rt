use kv_base::PathText;
use kv_outside::{Failed, Source};
use kv_real::FileIn;
use std::fs;
use std::test::Fail;

#[test]
fn reads_a_file(rt: HostRuntime) -> Result<(), Fail> {
    let name = "kv_tests_files_input";
    fs::write(&rt, name, "GET a\n")?;
    let mut source = FileIn::new(&rt, PathText::new(rt.alloc(), name)?);
    fs::remove_file(&rt, name)?;
    let mut piece = [0; 4];
    assert_eq!(rt; source.read(&mut piece), Ok(4));
    assert_eq!(rt; piece, *b"GET ");
    assert_eq!(rt; source.read(&mut piece), Ok(2));
    assert_eq!(rt; piece, *b"a\nT ");
    assert_eq!(rt; source.read(&mut piece), Ok(0));

    let mut absent = FileIn::new(&rt, PathText::new(rt.alloc(), name)?);
    assert_eq!(rt; absent.read(&mut piece), Err(Failed));
    Ok(())
}
