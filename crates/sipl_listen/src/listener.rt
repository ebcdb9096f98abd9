use crate::address::{Address, MAX_PATH_LEN};
use crate::lock::take_lock;
use crate::stream::Stream;
use std::alloc::Global;
use std::fs::{DirBuilder, File, Permissions};
use std::io::ErrorKind;
use std::net::{Net, Shutdown, SocketAddr, TcpListener, TcpStream};
use std::os::fd::{AsRawFd, OwnedFd};
use std::os::unix::fs::{DirBuilderExt, FileTypeExt, PermissionsExt};
use std::os::unix::net::{UnixListener, UnixStream};
use std::rt::Files;
use std::{fs, io};

#[derive(Drop)]
enum Socket {
    Tcp(TcpListener),
    // The file has the lock of the path for as long as it is open.
    Unix(UnixListener, File),
}

/// A socket that accepts connections.
#[derive(Drop)]
pub struct Listener {
    address: Address,
    socket: Socket,
    // The same socket as a stream, whose `shutdown` ends an `accept`. It is made at the start, since a
    // process that has no descriptor left cannot make it.
    waker: Stream,
}

impl Listener {
    /// Listens at an address; the file of a Unix socket has these permissions.
    pub fn bind<R>(rt: &R, alloc: Global, address: &Address, mode: u32) -> io::Result<Listener>
    where
        R: Files<File = File> + Net<Listener = TcpListener, Stream = TcpStream>,
    {
        match address {
            Address::Tcp(address) => bind_tcp(rt, *address),
            Address::Unix(path) => bind_unix(rt, alloc, path.as_str(), mode),
        }
    }

    /// Where it listens. The port is the one that the system chose, if it was to choose one.
    pub fn address(&self) -> &Address {
        &self.address
    }

    /// Waits for a connection.
    pub fn accept(&self) -> io::Result<Stream> {
        match &self.socket {
            Socket::Tcp(listener) => Ok(Stream::Tcp(listener.accept()?.0)),
            Socket::Unix(listener, _) => Ok(Stream::Unix(listener.accept()?.0)),
        }
    }

    /// Ends the accepts that wait and all later ones: they fail.
    pub fn close(&self) {
        let _ = self.waker.shutdown(Shutdown::Both);
    }

    /// Removes the file of a Unix socket. Its lock file stays.
    pub fn remove<R: Files>(&self, rt: &R) {
        if let Address::Unix(path) = &self.address {
            let _ = fs::remove_file(rt, path.as_str());
        }
    }
}

fn bind_tcp<R>(rt: &R, address: SocketAddr) -> io::Result<Listener>
where
    R: Net<Listener = TcpListener, Stream = TcpStream>,
{
    let listener = rt.bind(address)?;
    let address = Address::Tcp(listener.local_addr()?);
    let waker = TcpStream::from(OwnedFd::from(listener.try_clone()?));
    Ok(Listener {
        address,
        socket: Socket::Tcp(listener),
        waker: Stream::Tcp(waker),
    })
}

// Listens at a path. Whoever has the lock of the file beside it listens there, so a socket that is found
// is stale and is replaced.
fn bind_unix<R: Files<File = File> + Net>(
    rt: &R,
    alloc: Global,
    path: &str,
    mode: u32,
) -> io::Result<Listener> {
    let address = Address::Unix(String::from_str(alloc, path)?);
    let lock = take_lock(rt, format!(in alloc; "{path}.lock")?.as_str())?;
    let listener = bind_at(rt, alloc, path, mode)?;
    let waker = UnixStream::from(OwnedFd::from(listener.try_clone()?));
    Ok(Listener {
        address,
        socket: Socket::Unix(listener, lock),
        waker: Stream::Unix(waker),
    })
}

// Listens at a path whose lock is taken. The socket is bound in a folder that only its owner may enter, and
// moved: it has its permissions from the first moment at which others can see it.
fn bind_at<R: Files<File = File> + Net>(
    rt: &R,
    alloc: Global,
    path: &str,
    mode: u32,
) -> io::Result<UnixListener> {
    expect_socket_or_none(rt, path)?;
    let folder = format!(in alloc; "{path}.d")?;
    let bound = format!(in alloc; "{path}.d/s")?;
    make_folder(rt, folder.as_str(), bound.as_str())?;
    let listener = bind_in(rt, alloc, folder.as_str(), bound.as_str())?;
    show(rt, folder.as_str(), bound.as_str(), path, mode)?;
    Ok(listener)
}

// Makes the folder in which a socket is bound, anew if it is there.
fn make_folder<R: Files>(rt: &R, folder: &str, bound: &str) -> io::Result<()> {
    let _ = fs::remove_file(rt, bound);
    let _ = fs::remove_dir(rt, folder);
    DirBuilder::new().mode(0o700).create(rt, folder)
}

// Moves a socket to its path, with its permissions.
fn show<R: Files>(rt: &R, folder: &str, bound: &str, path: &str, mode: u32) -> io::Result<()> {
    fs::set_permissions(rt, bound, Permissions::from_mode(mode))?;
    fs::rename(rt, bound, path)?;
    fs::remove_dir(rt, folder)
}

// Listens at a path in a folder. Where the system takes no path of that length, the folder has a shorter
// name as a file that is open.
fn bind_in<R: Files<File = File> + Net>(
    rt: &R,
    alloc: Global,
    folder: &str,
    path: &str,
) -> io::Result<UnixListener> {
    if path.len() <= MAX_PATH_LEN {
        return UnixListener::bind(rt, path);
    }
    let folder = File::open(rt, folder)?;
    let path = format!(in alloc; "/proc/self/fd/{}/s", folder.as_raw_fd())?;
    UnixListener::bind(rt, path.as_str())
}

/// Checks that there is a socket at a path, which may be left over, or nothing.
pub fn expect_socket_or_none<R: Files>(rt: &R, path: &str) -> io::Result<()> {
    match fs::symlink_metadata(rt, path) {
        Ok(found) if found.file_type().is_socket() => Ok(()),
        Ok(_) => Err(io::Error::new(
            ErrorKind::AlreadyExists,
            "a file that is no socket is there",
        )),
        Err(error) if error.kind() == ErrorKind::NotFound => Ok(()),
        Err(error) => Err(error),
    }
}
