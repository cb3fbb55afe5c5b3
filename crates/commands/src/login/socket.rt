//! The socket of a login. One run holds both of its ends.
//!
//! No read or write on it waits. One end writes before the other end reads, so a read that would have to wait means that the other
//! end is a stranger, who connected to the socket first.
ghost use Rattle.std.specs.Prelude.{◌≡◌, IfErr};

use book_file::is_same_file;
use command_line::Fault;
use sasl_log::{OverRead, OverWrite};
use std::fs::{Files, Metadata};
use std::io::ErrorKind;
use std::net::{Net, Shutdown};
use std::os::unix::net::{UnixListener, UnixStream};
use std::{fs, io};

/// The file of a socket that this run has made. Dropping this value removes the file, unless another file is seen to have its name by
/// then. If the metadata can't be read, what has the name is removed.
pub(crate) struct SocketFile<'a, R: Files> {
    rt: &'a R,
    path: &'a str,

    // The file's metadata just after it was made, or None if they could not be read.
    made: Option<Metadata>,
}

impl<'a, R: Files> Drop for SocketFile<'a, R> {
    fn drop(self) {
        if !self.is_replaced() {
            let _ = fs::remove_file(self.rt, self.path);
        }
        let SocketFile {
            rt: _,
            path: _,
            made: _,
        } = self;
    }
}

impl<'a, R: Files> SocketFile<'a, R> {
    // The file at `path`, which was just made.
    fn new(rt: &'a R, path: &'a str) -> SocketFile<'a, R> {
        let made = fs::symlink_metadata(rt, path).ok();
        SocketFile { rt, path, made }
    }

    // Whether another file has the name now. False if the metadata can't be read.
    fn is_replaced(&self) -> bool {
        match (&self.made, fs::symlink_metadata(self.rt, self.path)) {
            (Some(made), Ok(found)) => !is_same_file(made, &found),
            _ => false,
        }
    }
}

/// A connection with both ends in this run.
#[derive(Drop)]
pub(crate) struct Connection {
    client: UnixStream,
    server: UnixStream,
}

/// One end of a connection, to read and to write.
#[derive(Drop)]
pub(crate) struct End<R, W> {
    /// Reads what the other end writes.
    pub(crate) reader: R,

    /// Writes what the other end reads.
    pub(crate) writer: W,
}

/// Both ends of a connection, to read and to write.
#[derive(Drop)]
pub(crate) struct Ends<R, W> {
    pub(crate) client: End<R, W>,
    pub(crate) server: End<R, W>,
}

impl Connection {
    /// Both ends, to read and to write.
    pub(crate) fn ends(&self) -> Ends<OverRead<&UnixStream>, OverWrite<&UnixStream>> {
        Ends {
            client: end_of(&self.client),
            server: end_of(&self.server),
        }
    }

    /// Shuts down the client's writing half, so that the server reads to the end. The only fault is Socket.
    pub(crate) fn hang_up(&self) -> Result<(), Fault>
        ensures { IfErr result (λ fault. fault ≡ Fault.Socket) }
    {
        self.client
            .shutdown(Shutdown::Write)
            .map_err(|_| Fault::Socket)
    }
}

// The reader and the writer of one end of the connection.
fn end_of(stream: &UnixStream) -> End<OverRead<&UnixStream>, OverWrite<&UnixStream>> {
    End {
        reader: OverRead::new(stream),
        writer: OverWrite::new(stream),
    }
}

/// Makes a socket at `path`, and connects to it. The path has at most 107 bytes, and nothing may be there yet. The only fault is
/// Socket; if the socket was made, its file is then removed.
pub(crate) fn open<'a, R: Files + Net>(
    rt: &'a R,
    path: &'a str,
) -> Result<(Connection, SocketFile<'a, R>), Fault>
    ensures { IfErr result (λ fault. fault ≡ Fault.Socket) }
{
    let (listener, file) = bind(rt, path)?;
    match connect(rt, path, &listener) {
        Ok(connection) => Ok((connection, file)),
        Err(_) => Err(Fault::Socket),
    }
}

// Makes a socket at `path`. `UnixListener::bind` makes the file before the socket listens, so a failure between the two leaves a
// file, which is removed here. A file that had the name before is another's and stays, and so does one that makes `bind` fail with
// AddrInUse.
fn bind<'a, R: Files + Net>(
    rt: &'a R,
    path: &'a str,
) -> Result<(UnixListener, SocketFile<'a, R>), Fault>
    ensures { IfErr result (λ fault. fault ≡ Fault.Socket) }
{
    let was_free = is_free(rt, path);
    match UnixListener::bind(rt, path) {
        Ok(listener) => Ok((listener, SocketFile::new(rt, path))),
        Err(error) => {
            if was_free && error.kind() != ErrorKind::AddrInUse {
                let _ = fs::remove_file(rt, path);
            }
            Err(Fault::Socket)
        }
    }
}

// Whether nothing has this name.
fn is_free<R: Files>(rt: &R, path: &str) -> bool {
    matches!(fs::symlink_metadata(rt, path), Err(error) if error.kind() == ErrorKind::NotFound)
}

// Connects to the socket at `path` and accepts the connection.
fn connect<R: Net>(rt: &R, path: &str, listener: &UnixListener) -> io::Result<Connection> {
    listener.set_nonblocking(true)?;
    let client = UnixStream::connect(rt, path)?;
    let (server, _) = listener.accept()?;
    client.set_nonblocking(true)?;
    server.set_nonblocking(true)?;
    Ok(Connection { client, server })
}
