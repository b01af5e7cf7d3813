// The host in memory, call by call.

use gd_host::{FetchError, Host, MemoryHost};
use std::alloc::AllocError;

fn file(rt: &HostRuntime, name: &str, bytes: &[u8]) -> Result<(String, Vec<u8>), AllocError> {
    Ok((
        String::from_str(rt.alloc(), name)?,
        Vec::from_slice(rt.alloc(), bytes)?,
    ))
}

// Nine calls, of which the third and the seventh are to fail, with room for five bytes of output.
#[test]
fn memory_is_exact(rt: HostRuntime) -> Result<(), AllocError> {
    let alloc = rt.alloc();
    let files = vec![in alloc;
        file(&rt, "a.c", b"int")?,
        file(&rt, "a.c", b"main")?,
        file(&rt, "b.c", b"void")?,
    ]?;
    let mut host = MemoryHost::new(alloc, files, 5, vec![in alloc; 3, 7]?)?;
    let fetches: [(&str, usize, Result<&[u8], FetchError>); 4] = [
        ("a.c", 3, Ok(b"int")),
        ("b.c", 3, Err(FetchError::TooLong)),
        ("b.c", 4, Err(FetchError::Failed)),
        ("c.c", 9, Err(FetchError::Failed)),
    ];
    for (name, limit, wanted) in &fetches {
        let answer = host.fetch(alloc, name, *limit);
        assert_eq!(rt;
            answer.as_ref().map(|bytes| bytes.as_slice()),
            wanted.as_ref().map(|bytes| *bytes),
            "at {name}"
        );
    }
    assert!(rt; host.emit(b"abc").is_ok());
    assert!(rt; host.emit(b"defg").is_err());
    assert!(rt; host.complain(b"unseen").is_err());
    assert!(rt; host.complain(b"seen").is_ok());
    assert!(rt; host.emit(b"").is_ok());
    assert_eq!(rt; host.out(), b"abcde".as_slice());
    assert_eq!(rt; host.err(), b"seen".as_slice());
    assert_eq!(rt;
        (host.read_faults(), host.write_faults(), host.lost()),
        (2, 1, 1)
    );
    assert_eq!(rt; host.asked(3), Some(b"c.c".as_slice()));
    assert_eq!(rt; host.asked(4), None);
    Ok(())
}
