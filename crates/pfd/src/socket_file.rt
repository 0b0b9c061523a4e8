//! The file of a Unix socket. No clause can say what becomes of files, so this is only tested.
use libc::net::{listen, poll};
use std::fs::{self, File, Files, Metadata, Permissions};
use std::io::{self, ErrorKind};
use std::net::{Net, TcpListener, TcpStream};
use std::os::fd::{AsFd, AsRawFd};
use std::os::unix::fs::{FileTypeExt, MetadataExt, PermissionsExt};
use std::os::unix::net::{SocketAddr, UnixListener, UnixStream};

// As many connections may wait to be accepted as the system allows.
const BACKLOG: i32 = -1;

// So many milliseconds lie between the two tries by which nobody answers at a socket's file.
const MOMENT: i32 = 100;

/// Which file lies at a path: its device, its number there, and when it was made, since a number is soon given again.
#[derive(PartialEq, Eq, Drop)]
pub(crate) struct SocketFile<'a> {
    path: &'a str,
    device: u64,
    inode: u64,
    seconds: i64,
    nanoseconds: i64,
}

impl<'a> SocketFile<'a> {
    // The file at this path.
    fn at<S: Files<File = File>>(files: &S, path: &'a str) -> io::Result<SocketFile<'a>> {
        let found = fs::symlink_metadata(files, path)?;
        Ok(SocketFile::of(path, &found))
    }

    // The file of which the system says this.
    fn of(path: &'a str, found: &Metadata) -> SocketFile<'a> {
        SocketFile {
            path,
            device: found.dev(),
            inode: found.ino(),
            seconds: found.mtime(),
            nanoseconds: found.mtime_nsec(),
        }
    }

    /// Removes the file, if it still lies at its path. One that can't be removed is found by the next server.
    pub(crate) fn remove<S: Files<File = File>>(&self, files: &S) {
        match SocketFile::at(files, self.path) {
            Ok(found) if found == *self => {
                let _ = fs::remove_file(files, self.path);
            }
            _ => {}
        }
    }
}

/// Listens at a path, on a socket whose file has this mode. A socket's file that is there is removed if nobody answers at it, as one that a
/// crash left; a file of any other kind is an error, and stays. Nobody else may make files in its folder meanwhile.
pub(crate) fn listen_at<
    'a,
    N: Net<Listener = TcpListener, Stream = TcpStream>,
    S: Files<File = File>,
>(net: &N, files: &S, path: &'a str, mode: u32) -> io::Result<(UnixListener, SocketFile<'a>)> {
    let address = SocketAddr::from_pathname(path)?;
    remove_stale(net, files, path)?;
    let socket = net.unix_socket()?;
    files.bind_unix(socket.as_fd(), &address)?;
    let file = SocketFile::at(files, path)?;
    match let_in(files, path, mode, socket.as_raw_fd()) {
        Ok(()) => Ok((UnixListener::from(socket), file)),
        Err(error) => {
            file.remove(files);
            Err(error)
        }
    }
}

// Gives a socket's file its mode, and has clients connect to the socket then: before that nobody can, whatever mode the file was made with.
fn let_in<S: Files<File = File>>(files: &S, path: &str, mode: u32, socket: i32) -> io::Result<()> {
    fs::set_permissions(files, path, Permissions::from_mode(mode))?;
    if listen(socket, BACKLOG) != 0 {
        return Err(io::Error::from(ErrorKind::Other));
    }
    Ok(())
}

// Removes the file of a socket at which nobody answers.
fn remove_stale<N: Net<Listener = TcpListener, Stream = TcpStream>, S: Files<File = File>>(
    net: &N,
    files: &S,
    path: &str,
) -> io::Result<()> {
    let found = match fs::symlink_metadata(files, path) {
        Ok(found) => found,
        Err(error) if error.kind() == ErrorKind::NotFound => return Ok(()),
        Err(error) => return Err(error),
    };
    if !found.file_type().is_socket() {
        return Err(io::Error::from(ErrorKind::AlreadyExists));
    }
    if !is_silent(net, path)? {
        return Err(io::Error::from(ErrorKind::AddrInUse));
    }
    let stale = SocketFile::of(path, &found);
    // a server that has just made the file may be about to listen
    poll(&mut [], MOMENT);
    if !is_silent(net, path)? {
        return Err(io::Error::from(ErrorKind::AddrInUse));
    }
    stale.remove(files);
    Ok(())
}

// Whether nobody answers at a socket's file.
fn is_silent<N: Net<Listener = TcpListener, Stream = TcpStream>>(
    net: &N,
    path: &str,
) -> io::Result<bool> {
    match UnixStream::connect(net, path) {
        Ok(_) => Ok(false),
        Err(error) if error.kind() == ErrorKind::ConnectionRefused => Ok(true),
        Err(error) => Err(error),
    }
}
