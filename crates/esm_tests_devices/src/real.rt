// Tests of the real devices over a real file and a real connection. Standard input and output have no test: those of a
// test are not its own.

use esm_host::{FileDisk, FileSource, NoConnection, TcpDoor, TcpLink};
use esm_io::{Disk, Door, Failed, Link, Source};
use esm_model::Text;
use std::fs::File;
use std::io::Write;
use std::net::{Ipv4Addr, Net, OpenListener, TcpListener, TcpStream};
use std::process::{Abort, Process};
use std::rt::{Clock, Env, Files};
use std::time::Duration;
use std::{env, fs, process, thread};

/// A path among the temporary files that no other test process uses.
fn temporary<R: Env + AllocGlobal + Abort>(rt: &R, process: Process, name: &str) -> String {
    let folder = env::temp_dir(rt).expect(rt, "a folder");
    let id = process::id(process);
    format!(in rt.alloc(); "{}/esm_io-{id}-{name}", folder.as_str()).expect(rt, "memory")
}

fn text<R: AllocGlobal + Abort>(rt: &R, path: &str) -> Text {
    Text::from_vec(String::from_str(rt.alloc(), path).expect(rt, "memory"))
}

/// Whether an empty disk takes three bytes and gives the last two.
fn keeps<R: Files<File = File> + Clone>(disk: &mut FileDisk<R>) -> bool {
    let mut into = [0; 2];
    disk.len() == Ok(0)
        && disk.write_at(0, &[1, 2, 3]) == Ok(())
        && disk.sync() == Ok(())
        && disk.read(1, &mut into) == Ok(())
        && into == [2, 3]
}

#[test]
fn file_disk_keeps_its_bytes_and_its_lock(rt: HostRuntime) {
    let path = temporary(&rt, rt.process(), "disk");
    let mut disk = FileDisk::new(&rt, text(&rt, path.as_str())).expect(&rt, "memory");
    let mut other = FileDisk::new(&rt, text(&rt, path.as_str())).expect(&rt, "memory");
    assert!(rt; keeps(&mut disk) && other.len() == Err(Failed));
    drop(disk);
    assert!(rt; other.len() == Ok(3) && fs::remove_file(&rt, path.as_str()).is_ok());
}

#[test]
fn file_disk_wants_its_folder(rt: HostRuntime) {
    let path = temporary(&rt, rt.process(), "none/disk");
    let mut disk = FileDisk::new(&rt, text(&rt, path.as_str())).expect(&rt, "memory");
    assert!(rt; disk.len() == Err(Failed));
}

/// Whether the file's bytes are `ab`.
fn is_ab<R: Files<File = File> + Clone>(source: &mut FileSource<R>) -> bool {
    let mut into = [0; 4];
    source.read(&mut into) == Ok(2) && into == [97, 98, 0, 0] && source.read(&mut into) == Ok(0)
}

#[test]
fn file_source_gives_a_file(rt: HostRuntime) {
    let path = temporary(&rt, rt.process(), "source");
    let mut source = FileSource::new(&rt, text(&rt, path.as_str())).expect(&rt, "memory");
    assert!(rt; source.read(&mut [0; 4]) == Err(Failed));
    assert!(rt; fs::write(&rt, path.as_str(), "ab").is_ok() && is_ab(&mut source));
    assert!(rt; fs::remove_file(&rt, path.as_str()).is_ok());
}

fn free_port<R: Net + Abort>(rt: &R) -> u16 {
    let listener = TcpListener::bind(rt, (Ipv4Addr::LOCALHOST, 0)).expect(rt, "a free port");
    listener.local_addr().expect(rt, "its address").port()
}

/// Reads a byte on the next connection and sends it back.
fn echo<R: Net + Clock + Clone + AllocGlobal>(rt: &R, port: u16) -> Option<u8> {
    let mut door = TcpDoor::new(rt, port).ok()?;
    let mut link = door.accept().ok()?;
    let mut into = [0];
    link.read(&mut into).ok()?;
    link.write(&into).ok()?;
    door.close(rt.alloc(), link).ok()?;
    Some(into[0])
}

/// Sends a byte as soon as the door is open, and reads one.
fn ask<R: Net + Clock + Clone>(rt: &R, port: u16) -> Option<u8> {
    let mut link = TcpLink::new(rt, port, Duration::from_secs(10)).ok()?;
    for _ in 0..1000 {
        if link.connect().is_ok() {
            break;
        }
        rt.sleep(Duration::from_millis(5));
    }
    link.write(&[7]).ok()?;
    let mut into = [0];
    link.read(&mut into).ok()?;
    Some(into[0])
}

#[test]
fn bytes_go_over_a_door_and_back(rt: HostRuntime) {
    let port = free_port(&rt);
    let (heard, answered) = thread::join(&rt, || echo(&rt, port), || ask(&rt, port));
    assert_eq!(rt; heard, Some(7));
    assert_eq!(rt; answered, Some(7));
}

#[test]
fn a_port_where_nobody_listens_is_refused(rt: HostRuntime) {
    let port = free_port(&rt);
    let mut link = TcpLink::new(&rt, port, Duration::from_secs(10)).expect(&rt, "memory");
    assert!(rt; link.connect() == Err(NoConnection::Refused));
    assert!(rt; link.read(&mut [0]) == Err(Failed));
}

/// Whether the next connection gives a byte and then only faults, even when its peer sends a byte later; all its reads
/// together have a quarter of a second.
fn hear_one<R: Net + Clock + Clone>(
    rt: &R,
    listener: &R::Listener,
    peer: &mut R::Stream,
) -> Option<bool> {
    let (stream, _) = listener.accept().ok()?;
    let mut link = TcpLink::accepted(rt, stream, Duration::from_millis(250)).ok()?;
    let heard = link.read(&mut [0; 4]) == Ok(1) && link.read(&mut [0]) == Err(Failed);
    peer.write(&[8]).ok()?;
    Some(heard && link.read(&mut [0]) == Err(Failed))
}

#[test]
fn a_silent_peer_is_a_fault_after_the_limit(rt: HostRuntime) {
    let listener = TcpListener::bind(&rt, (Ipv4Addr::LOCALHOST, 0)).expect(&rt, "a free port");
    let at = listener.local_addr().expect(&rt, "its address");
    let mut peer = TcpStream::connect(&rt, at).expect(&rt, "a connection");
    assert!(rt; peer.write(&[7]).is_ok());
    assert_eq!(rt; hear_one(&rt, &listener, &mut peer), Some(true));
    drop(peer);
}
